// What stands in front of a packet, taken as one field: its NID_PACKET, Q_DIR and L_PACKET; and a CTCS packet's NID_XUSER, Q_DIR and L_PACKET.
ghost use Rattle.states.specs.Heads.{Headed, Inward, Led};

use crate::rows::Rows;
use bits::Cursor;
use lookback::collides_in_bits;
use packets::National;
use packets::heads::{INNER_HEAD, OUTER_HEAD};
use states::codes::END;
use states::{Level, State, Todo};

// The head that is due, if one is: of a packet, or of the CTCS packet inside one.
pub(crate) fn leading(rows: &Rows, s: &[u8], n: usize, st: State) -> Option<State>
    ensures { Led s.now n st result }
{
    if st.todo.node == 0 {
        return head(rows, s, n, st);
    }
    if st.todo.node == National::INNER_ROW {
        return inner(rows, s, n, st);
    }
    None
}

// The head of the packet that begins here, if it keeps every rule, its packet collides with none before it, and a field follows it. Row 0 stands for
// no packet.
fn head(rows: &Rows, s: &[u8], n: usize, st: State) -> Option<State>
    ensures { Headed s.now n st result }
{
    let c = Cursor { at: st.at };
    let (a, next) = c.take(s, n, OUTER_HEAD)?;
    let id = a / 32768;
    let dir = a / 8192 % 4;
    let row = packets::etcs(id).row;
    if row == 0 {
        return None;
    }
    if rows.act(row + 2) == END {
        return None;
    }
    if dir == 3 {
        return None;
    }
    if collides_in_bits(s, st.start, id, dir) {
        return None;
    }
    Some(State {
        at: next.at,
        todo: Todo::at(row + 2),
        id,
        dir,
        long: a % 8192,
        ..State::fresh(st.start, st.pig)
    })
}

// The head of the CTCS packet that begins here, if it keeps every rule, its Q_DIR is that of the packet around it, and a field follows it.
// Apart from `head`: of another table, with another rule of its Q_DIR and another state behind it; a function for both would take these as closures.
fn inner(rows: &Rows, s: &[u8], n: usize, st: State) -> Option<State>
    ensures { Inward s.now n st result }
{
    let c = Cursor { at: st.at };
    let (a, next) = c.take(s, n, INNER_HEAD)?;
    let id = a / 32768;
    let dir = a / 8192 % 4;
    let row = packets::ctcs(id).row;
    if row == 0 {
        return None;
    }
    if rows.act(row + 2) == END {
        return None;
    }
    if 2 < dir {
        return None;
    }
    if dir != st.dir {
        return None;
    }
    Some(State {
        at: next.at,
        todo: Todo::at(row + 2),
        level: Level::User,
        userstart: st.at,
        userlong: a % 8192,
        ..st
    })
}
