// The types that the definitions of docs/RULES.md speak of: the refusals, which answers carry, and where a packet begins. The definitions
// are under specs/, and the code that computes them in the crates `packets`, `refusals`, `table` and `clashes`.
#![tactic(auto)]

ghost use Rattle.std.specs.Prelude.{◌≡◌};

// The kinds of refusal, each with its number (docs/RULES.md), which `number_of` in specs/Refusals.antt gives for proofs.
#[derive(Clone, Copy, Debug, PartialEq, Eq)]
pub enum Kind {
    Room = 1,
    Size = 2,
    Padding = 3,
    Header = 4,
    Ended = 5,
    Unknown = 6,
    Value = 7,
    Length = 8,
    Direction = 9,
    Repeated = 10,
    Trailing = 11,
    Wide = 12,
    Full = 13,
}

// What a refusal points at: the field that is due, the bit behind it, or an L_PACKET that is wrong: that of the packet, or of the CTCS
// packet inside it.
#[derive(Clone, Copy, Debug, PartialEq, Eq)]
pub enum Spot {
    Due,
    Behind,
    Outer,
    Inner,
}

// A refusal: its kind together with its place, a bit of the telegram.
#[derive(Clone, Copy, Debug, PartialEq, Eq)]
pub struct Refusal {
    pub kind: Kind,
    pub place: usize,
}

impl Refusal {
    // A refusal that no bit is to blame for: its place is 0.
    pub fn at_once(kind: Kind) -> Self
        ensures { result ≡ record { kind = kind; place = 0 } }
    {
        Refusal { kind, place: 0 }
    }
}

// Where a packet's fields begin in the table of rows, and the bits of its head from the identifier on; both 0 where there is none.
#[derive(Clone, Copy, Debug, PartialEq, Eq)]
pub struct Start {
    pub row: usize,
    pub head: usize,
}
