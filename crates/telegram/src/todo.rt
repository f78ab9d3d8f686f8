// What is still to be sent of a packet, and what is after a value.
ghost use Rattle.std.specs.Prelude.{◌<◌};
ghost use Rattle.format.specs.Table.{act};
ghost use Rattle.states.specs.Machine.{Tidy, Followed, Moved, Turned, Advanced};

use crate::rows::Rows;
use states::Todo;
use states::codes::{END, NEST, SEND, TIMES};

// The row after a field that steers and repeats nothing.
fn follow(rows: &Rows, k: usize, v: u64) -> usize
    requires { (k < 213) × (2 < act k) × (act k < 5) }
    ensures { Followed k v result }
{
    if v == 1 {
        return k + 1;
    }
    rows.jump(k)
}

// The field is passed: the next row, or the first row of the group that it repeats.
pub(crate) fn moved(rows: &Rows, t: Todo, v: u64) -> Todo
    requires { (t.node < 213) × (1 < act t.node) }
    ensures { Moved t v result }
{
    let k = t.node;
    match rows.act(k) {
        SEND => Todo { node: k + 1, ..t },
        TIMES => {
            if v == 0 {
                return Todo {
                    node: rows.jump(k),
                    ..t
                };
            }
            Todo {
                node: k + 1,
                left: v - 1,
                outer: t.left,
            }
        }
        _ => Todo {
            node: follow(rows, k, v),
            ..t
        },
    }
}

// At a group's end: the group again, or the next row, which follows its last.
pub(crate) fn turned(rows: &Rows, t: Todo) -> Todo
    requires { t.node < 213 }
    ensures { Turned t result }
{
    let k = t.node;
    if rows.act(k) != END {
        return t;
    }
    let u = rows.back(k);
    if u == 0 {
        return t;
    }
    if t.left == 0 {
        return Todo {
            node: k + 1,
            left: t.outer,
            outer: 0,
        };
    }
    Todo {
        node: u + 1,
        left: t.left - 1,
        ..t
    }
}

// What is to be sent after the field that is due holds v. No group holds two others, so that two turns are enough.
fn further(rows: &Rows, t: Todo, v: u64) -> Option<Todo>
    requires { Tidy t }
    ensures { Advanced t v result }
{
    match rows.act(t.node) {
        END => {
            let row = packets::etcs(v).row;
            if row == 0 {
                return None;
            }
            Some(Todo::at(row))
        }
        NEST => Some(Todo::at(packets::ctcs(v).row)),
        _ => Some(turned(rows, turned(rows, moved(rows, t, v)))),
    }
}

// The same, with no more ado where the field steers nothing and another follows it, as most do.
pub(crate) fn advance(rows: &Rows, t: Todo, v: u64) -> Option<Todo>
    requires { Tidy t }
    ensures { Advanced t v result }
{
    let k = t.node;
    if rows.act(k) != SEND {
        return further(rows, t, v);
    }
    if rows.act(k + 1) == END {
        return further(rows, t, v);
    }
    Some(Todo { node: k + 1, ..t })
}
