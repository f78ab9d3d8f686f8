// The short ways of the drivers: fields that need not be read are gone past, and values of which nothing is kept need no step of the machine.
ghost use Rattle.states.specs.Machine.{Tidy, Drifted, Eased};

use crate::rows::Rows;
use crate::todo::{moved, turned};
use bits::Cursor;
use short::{slight, unread};
use states::codes::{END, SEND};
use states::{Easy, Reach, Todo};

// Goes past fields unread, through the cursor, up to one that has to be read, that is the last of its packet or of its list, or that would end
// past bit n. What follows a field is told apart here in place, so that the processor can guess it.
pub(crate) fn drift(rows: &Rows, n: usize, from: Todo, start: Cursor) -> Reach
    requires { Tidy from }
    ensures { Drifted n from start.at result.todo result.cursor.at result.fields }
{
    let mut t = from;
    let mut c = start;
    let mut fields: usize = 0;
    loop {
        let k = t.node;
        if !unread(rows.act(k), rows.rest(k)) {
            break;
        }
        let Some(next) = c.skip(n, rows.width(k)) else {
            break;
        };
        if rows.act(k + 1) != END {
            t.node = k + 1;
            c = next;
            fields += 1;
            continue;
        }
        let u = rows.back(k + 1);
        if u == 0 {
            break;
        }
        if t.left == 0 {
            break;
        }
        t.node = u + 1;
        t.left -= 1;
        c = next;
        fields += 1;
    }
    Reach {
        todo: t,
        cursor: c,
        fields,
    }
}

// What is to be sent after a value that keeps its rule and of which nothing is kept, if one turn finds a field or the packet's end. Where the
// field steers nothing and another follows it, as most do, there is no turn to look for.
pub(crate) fn ease(rows: &Rows, t: Todo, v: u64) -> Easy
    requires { Tidy t }
    ensures { Eased t v result }
{
    let k = t.node;
    if !slight(rows.rest(k), v) {
        return Easy::Not;
    }
    let a = rows.act(k);
    if a < SEND {
        return Easy::Not;
    }
    if a == SEND {
        if rows.act(k + 1) != END {
            return Easy::To(Todo { node: k + 1, ..t });
        }
    }
    let u = turned(rows, moved(rows, t, v));
    if rows.act(u.node) != END {
        return Easy::To(u);
    }
    if rows.back(u.node) == 0 {
        return Easy::Ends(u);
    }
    Easy::Not
}
