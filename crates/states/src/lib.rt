// Where a telegram stands between two fields: the types of it, what they stand for and what is answered (specs/), and all that is proved of
// that (proofs/). The functions over it stand in the crates above: `lookback`, `noting`, `front`, `short`, `telegram`.
#![tactic(auto)]

ghost use Rattle.std.specs.Prelude.{◌≡◌};

pub mod codes;

use bits::Cursor;
use format::Kind;

// What is to be sent: the items of row node; at the end of their group, the group left times more; and at the end of the group
// around that, that group outer times more.
#[derive(Clone, Copy)]
pub struct Todo {
    pub node: usize,
    pub left: u64,
    pub outer: u64,
}

impl Todo {
    // The items of a row in no group: nothing is sent again.
    pub fn at(node: usize) -> Todo
        ensures { result ≡ record { node = node; left = 0; outer = 0 } }
    {
        Todo {
            node,
            left: 0,
            outer: 0,
        }
    }
}

// Whether the field that is due belongs to the header, to a packet or, behind its NID_XUSER, to the CTCS packet inside one.
#[derive(Clone, Copy)]
pub enum Level {
    Header,
    Packet,
    User,
}

// Where a telegram stands before its next field, as `State` and `Context` of the crate format, but for the packets before.
#[derive(Clone, Copy)]
pub struct State {
    pub at: usize,
    pub todo: Todo,
    pub level: Level,
    pub start: usize,
    pub id: u64,
    pub dir: u64,
    pub long: u64,
    pub userstart: usize,
    pub userlong: u64,
    pub pig: u64,
}

impl State {
    ghost use Rattle.states.specs.Machine.{fresh_at};

    // Before the next packet, or the end mark: row 0 stands for no packet.
    pub fn fresh(at: usize, pig: u64) -> State
        ensures { result ≡ fresh_at at pig }
    {
        State {
            at,
            todo: Todo::at(0),
            level: Level::Packet,
            start: at,
            id: 0,
            dir: 0,
            long: 0,
            userstart: 0,
            userlong: 0,
            pig,
        }
    }
}

// Where a telegram stands behind fields that were gone past: what is to be sent there, the cursor, and how many fields they were.
#[derive(Clone, Copy)]
pub struct Reach {
    pub todo: Todo,
    pub cursor: Cursor,
    pub fields: usize,
}

// Where a value leads of which nothing is kept: to a field, to the packet's end, or that more has to be known.
#[derive(Clone, Copy)]
pub enum Easy {
    To(Todo),
    Ends(Todo),
    Not,
}
