// Whether a packet collides with an earlier one. No list of the packets met is kept: the bits or values before are looked over again.
ghost use Rattle.std.specs.Prelude.{◌≡◌, ◌&&◌, ◌≤◌, ◌<◌, eqb, length};
ghost use Rattle.format.specs.Rules.{clash, collides_among};
ghost use Rattle.states.specs.Lookback.{packets_before, packets_among, begins, directs, repeats};
ghost use Rattle.states.specs.Machine.{Tidy, todo_of};

use crate::rows::Rows;
use crate::todo::advance;
use clashes::exempt;
use lookback::{row_meets, state_collides};
use states::codes::DIRECTION;
use states::{Level, State, Todo};

// The fields of a header, which are as many values.
pub(crate) const FRONT: usize = 10;

// Whether v is the Q_DIR of a packet that collides with one before it, in the bits of s.
pub(crate) fn repeated_in_bits(rows: &Rows, s: &[u8], st: State, v: u64) -> bool
    requires { st.todo.node < 213 }
    ensures { result ≡ repeats st v (packets_before s.now st.start) }
{
    if !directing(rows, st) {
        return false;
    }
    state_collides(s, st, v)
}

// Whether v, which is the value number i, is the Q_DIR of a packet that collides with one before it. Apart from the same in bits, since what is looked over
// is of another type; what both share is one test.
pub(crate) fn repeated_in_values(rows: &Rows, values: &[u64], i: usize, st: State, v: u64) -> bool
    requires { (st.todo.node < 213) × (i ≤ length values.now) }
    ensures { result ≡ repeats st v (packets_among values.now i) }
{
    if !directing(rows, st) {
        return false;
    }
    collides_in_values(rows, values, i, st.id, v)
}

// Whether the field that is due is the Q_DIR of a packet, by which packets collide.
fn directing(rows: &Rows, s: State) -> bool
    requires { s.todo.node < 213 }
    ensures { result ≡ directs s }
{
    if rows.code(s.todo.node) != DIRECTION {
        return false;
    }
    match s.level {
        Level::Packet => true,
        Level::Header | Level::User => false,
    }
}

// Whether a packet with this NID_PACKET and Q_DIR collides with one of those among the first n values. These are gone over again from the
// header's end on: an L_PACKET counts bits, and does not say how many values its packet has.
fn collides_in_values(rows: &Rows, values: &[u64], n: usize, id: u64, dir: u64) -> bool
    requires { n ≤ length values.now }
    ensures { result ≡ collides_among clash id dir (packets_among values.now n) }
{
    if exempt(id) {
        return false;
    }
    if n == 0 {
        return false;
    }
    let last = n - 1;
    let mut t = Todo::at(0);
    for i in FRONT..last {
        let v = values[i];
        if packet_meets(rows, t, v, values[i + 1], id, dir) {
            return true;
        }
        let Some(u) = advance(rows, t, v) else {
            return false;
        };
        t = u;
    }
    false
}

// Whether a packet begins with the value v that collides with this one, where w is the value behind v.
fn packet_meets(rows: &Rows, t: Todo, v: u64, w: u64, id: u64, dir: u64) -> bool
    requires { Tidy t }
    ensures { result ≡ (begins (todo_of t) && (eqb id v && clash dir w)) }
{
    row_meets(rows.act(t.node), v, w, id, dir)
}
