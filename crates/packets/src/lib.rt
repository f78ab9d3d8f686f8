// The kinds of packets. Each keeps its identifier, the bits of its head and the row at which its fields begin with the kind.
#![tactic(auto, unfolding(format::specs::Kinds::etcs_start, format::specs::Kinds::ctcs_start))]

ghost use Rattle.std.specs.Prelude.{◌≡◌};
ghost use Rattle.format.specs.Kinds.{etcs_start, ctcs_start};
ghost use Rattle.format.specs.declared.Start.{Start};

pub mod heads;

use format::Start;

// A kind of packet. Its identifier and the bits of its head are constants of the kind itself, since no constant's value may read a trait's, as those
// in heads.rt read a head.
pub trait Packet {
    // what the tables say of the identifier
    ghost START: { Start };

    // Where a packet of the kind begins.
    const START: Start;
}

// The packet that an NID_PACKET begins. No Option: where there is none, `etcs_start`, of which the theorems above speak, is row 0 and head 0.
pub fn etcs(v: u64) -> Start
    ensures { result ≡ etcs_start v }
{
    match v {
        Linking::ID => Linking::new().start,
        Gradient::ID => Gradient::new().start,
        Speed::ID => Speed::new().start,
        Level::ID => Level::new().start,
        Session::ID => Session::new().start,
        National::ID => National::new().start,
        Conditional::ID => Conditional::new().start,
        Track::ID => Track::new().start,
        Text::ID => Text::new().start,
        Position::ID => Position::new().start,
        Transition::ID => Transition::new().start,
        Shunting::ID => Shunting::new().start,
        Sight::ID => Sight::new().start,
        Default::ID => Default::new().start,
        _ => Start { row: 0, head: 0 },
    }
}

// The CTCS packet that an NID_XUSER begins, and so with `ctcs_start`.
pub fn ctcs(v: u64) -> Start
    ensures { result ≡ ctcs_start v }
{
    match v {
        Circuits::ID => Circuits::new().start,
        Restriction::ID => Restriction::new().start,
        Reversing::ID => Reversing::new().start,
        Turnout::ID => Turnout::new().start,
        Stopping::ID => Stopping::new().start,
        _ => Start { row: 0, head: 0 },
    }
}

// ETCS-5, linking.
#[derive(Clone, Copy)]
pub struct Linking {
    pub start: Start,
}

impl Linking {
    pub const ID: u64 = 5;

    pub const HEAD: usize = 25;

    const ROW: usize = 12;

    pub fn new() -> Self
        ensures { result.start ≡ etcs_start 5 }
    {
        Self { start: Self::START }
    }
}

impl Packet for Linking {
    ghost START = { etcs_start 5 };

    const START: Start = Start {
        row: Self::ROW,
        head: Self::HEAD,
    };
}

// ETCS-21, gradient profile.
#[derive(Clone, Copy)]
pub struct Gradient {
    pub start: Start,
}

impl Gradient {
    pub const ID: u64 = 21;

    pub const HEAD: usize = 25;

    const ROW: usize = 32;

    pub fn new() -> Self
        ensures { result.start ≡ etcs_start 21 }
    {
        Self { start: Self::START }
    }
}

impl Packet for Gradient {
    ghost START = { etcs_start 21 };

    const START: Start = Start {
        row: Self::ROW,
        head: Self::HEAD,
    };
}

// ETCS-27, static speed profile.
#[derive(Clone, Copy)]
pub struct Speed {
    pub start: Start,
}

impl Speed {
    pub const ID: u64 = 27;

    pub const HEAD: usize = 25;

    const ROW: usize = 44;

    pub fn new() -> Self
        ensures { result.start ≡ etcs_start 27 }
    {
        Self { start: Self::START }
    }
}

impl Packet for Speed {
    ghost START = { etcs_start 27 };

    const START: Start = Start {
        row: Self::ROW,
        head: Self::HEAD,
    };
}

// ETCS-41, level transition.
#[derive(Clone, Copy)]
pub struct Level {
    pub start: Start,
}

impl Level {
    pub const ID: u64 = 41;

    pub const HEAD: usize = 25;

    const ROW: usize = 64;

    pub fn new() -> Self
        ensures { result.start ≡ etcs_start 41 }
    {
        Self { start: Self::START }
    }
}

impl Packet for Level {
    ghost START = { etcs_start 41 };

    const START: Start = Start {
        row: Self::ROW,
        head: Self::HEAD,
    };
}

// ETCS-42, session with a radio block centre.
#[derive(Clone, Copy)]
pub struct Session {
    pub start: Start,
}

impl Session {
    pub const ID: u64 = 42;

    pub const HEAD: usize = 23;

    const ROW: usize = 77;

    pub fn new() -> Self
        ensures { result.start ≡ etcs_start 42 }
    {
        Self { start: Self::START }
    }
}

impl Packet for Session {
    ghost START = { etcs_start 42 };

    const START: Start = Start {
        row: Self::ROW,
        head: Self::HEAD,
    };
}

// ETCS-44, which holds a CTCS packet.
#[derive(Clone, Copy)]
pub struct National {
    pub start: Start,
}

impl National {
    pub const ID: u64 = 44;

    pub const HEAD: usize = 23;

    const ROW: usize = 85;

    // The row in which the CTCS packet is due, behind those of Q_DIR and L_PACKET. No other kind has one.
    pub const INNER_ROW: usize = Self::ROW + 2;

    pub fn new() -> Self
        ensures { result.start ≡ etcs_start 44 }
    {
        Self { start: Self::START }
    }
}

impl Packet for National {
    ghost START = { etcs_start 44 };

    const START: Start = Start {
        row: Self::ROW,
        head: Self::HEAD,
    };
}

// ETCS-46, conditional level transition.
#[derive(Clone, Copy)]
pub struct Conditional {
    pub start: Start,
}

impl Conditional {
    pub const ID: u64 = 46;

    pub const HEAD: usize = 23;

    const ROW: usize = 88;

    pub fn new() -> Self
        ensures { result.start ≡ etcs_start 46 }
    {
        Self { start: Self::START }
    }
}

impl Packet for Conditional {
    ghost START = { etcs_start 46 };

    const START: Start = Start {
        row: Self::ROW,
        head: Self::HEAD,
    };
}

// ETCS-68, track conditions.
#[derive(Clone, Copy)]
pub struct Track {
    pub start: Start,
}

impl Track {
    pub const ID: u64 = 68;

    pub const HEAD: usize = 25;

    const ROW: usize = 97;

    pub fn new() -> Self
        ensures { result.start ≡ etcs_start 68 }
    {
        Self { start: Self::START }
    }
}

impl Packet for Track {
    ghost START = { etcs_start 68 };

    const START: Start = Start {
        row: Self::ROW,
        head: Self::HEAD,
    };
}

// ETCS-72, plain text.
#[derive(Clone, Copy)]
pub struct Text {
    pub start: Start,
}

impl Text {
    pub const ID: u64 = 72;

    pub const HEAD: usize = 25;

    const ROW: usize = 112;

    pub fn new() -> Self
        ensures { result.start ≡ etcs_start 72 }
    {
        Self { start: Self::START }
    }
}

impl Packet for Text {
    ghost START = { etcs_start 72 };

    const START: Start = Start {
        row: Self::ROW,
        head: Self::HEAD,
    };
}

// ETCS-79, geographical position.
#[derive(Clone, Copy)]
pub struct Position {
    pub start: Start,
}

impl Position {
    pub const ID: u64 = 79;

    pub const HEAD: usize = 25;

    const ROW: usize = 131;

    pub fn new() -> Self
        ensures { result.start ≡ etcs_start 79 }
    {
        Self { start: Self::START }
    }
}

impl Packet for Position {
    ghost START = { etcs_start 79 };

    const START: Start = Start {
        row: Self::ROW,
        head: Self::HEAD,
    };
}

// ETCS-131, transition between radio block centres.
#[derive(Clone, Copy)]
pub struct Transition {
    pub start: Start,
}

impl Transition {
    pub const ID: u64 = 131;

    pub const HEAD: usize = 25;

    const ROW: usize = 149;

    pub fn new() -> Self
        ensures { result.start ≡ etcs_start 131 }
    {
        Self { start: Self::START }
    }
}

impl Packet for Transition {
    ghost START = { etcs_start 131 };

    const START: Start = Start {
        row: Self::ROW,
        head: Self::HEAD,
    };
}

// ETCS-132, danger for shunting.
#[derive(Clone, Copy)]
pub struct Shunting {
    pub start: Start,
}

impl Shunting {
    pub const ID: u64 = 132;

    pub const HEAD: usize = 23;

    const ROW: usize = 158;

    pub fn new() -> Self
        ensures { result.start ≡ etcs_start 132 }
    {
        Self { start: Self::START }
    }
}

impl Packet for Shunting {
    ghost START = { etcs_start 132 };

    const START: Start = Start {
        row: Self::ROW,
        head: Self::HEAD,
    };
}

// ETCS-137, stop if in staff responsible.
#[derive(Clone, Copy)]
pub struct Sight {
    pub start: Start,
}

impl Sight {
    pub const ID: u64 = 137;

    pub const HEAD: usize = 23;

    const ROW: usize = 162;

    pub fn new() -> Self
        ensures { result.start ≡ etcs_start 137 }
    {
        Self { start: Self::START }
    }
}

impl Packet for Sight {
    ghost START = { etcs_start 137 };

    const START: Start = Start {
        row: Self::ROW,
        head: Self::HEAD,
    };
}

// ETCS-254, default balise information.
#[derive(Clone, Copy)]
pub struct Default {
    pub start: Start,
}

impl Default {
    pub const ID: u64 = 254;

    pub const HEAD: usize = 23; // head A, and no field behind it

    const ROW: usize = 166;

    pub fn new() -> Self
        ensures { result.start ≡ etcs_start 254 }
    {
        Self { start: Self::START }
    }
}

impl Packet for Default {
    ghost START = { etcs_start 254 };

    const START: Start = Start {
        row: Self::ROW,
        head: Self::HEAD,
    };
}

// CTCS-1, track circuits.
#[derive(Clone, Copy)]
pub struct Circuits {
    pub start: Start,
}

impl Circuits {
    pub const ID: u64 = 1;

    pub const HEAD: usize = 26;

    const ROW: usize = 169;

    pub fn new() -> Self
        ensures { result.start ≡ ctcs_start 1 }
    {
        Self { start: Self::START }
    }
}

impl Packet for Circuits {
    ghost START = { ctcs_start 1 };

    const START: Start = Start {
        row: Self::ROW,
        head: Self::HEAD,
    };
}

// CTCS-2, temporary speed restriction.
#[derive(Clone, Copy)]
pub struct Restriction {
    pub start: Start,
}

impl Restriction {
    pub const ID: u64 = 2;

    pub const HEAD: usize = 26;

    const ROW: usize = 182;

    pub fn new() -> Self
        ensures { result.start ≡ ctcs_start 2 }
    {
        Self { start: Self::START }
    }
}

impl Packet for Restriction {
    ghost START = { ctcs_start 2 };

    const START: Start = Start {
        row: Self::ROW,
        head: Self::HEAD,
    };
}

// CTCS-3, reversing area.
#[derive(Clone, Copy)]
pub struct Reversing {
    pub start: Start,
}

impl Reversing {
    pub const ID: u64 = 3;

    pub const HEAD: usize = 26;

    const ROW: usize = 197;

    pub fn new() -> Self
        ensures { result.start ≡ ctcs_start 3 }
    {
        Self { start: Self::START }
    }
}

impl Packet for Reversing {
    ghost START = { ctcs_start 3 };

    const START: Start = Start {
        row: Self::ROW,
        head: Self::HEAD,
    };
}

// CTCS-4, large-number turnout.
#[derive(Clone, Copy)]
pub struct Turnout {
    pub start: Start,
}

impl Turnout {
    pub const ID: u64 = 4;

    pub const HEAD: usize = 26;

    const ROW: usize = 203;

    pub fn new() -> Self
        ensures { result.start ≡ ctcs_start 4 }
    {
        Self { start: Self::START }
    }
}

impl Packet for Turnout {
    ghost START = { ctcs_start 4 };

    const START: Start = Start {
        row: Self::ROW,
        head: Self::HEAD,
    };
}

// CTCS-5, absolute stop.
#[derive(Clone, Copy)]
pub struct Stopping {
    pub start: Start,
}

impl Stopping {
    pub const ID: u64 = 5;

    pub const HEAD: usize = 24;

    const ROW: usize = 209;

    pub fn new() -> Self
        ensures { result.start ≡ ctcs_start 5 }
    {
        Self { start: Self::START }
    }
}

impl Packet for Stopping {
    ghost START = { ctcs_start 5 };

    const START: Start = Start {
        row: Self::ROW,
        head: Self::HEAD,
    };
}
