// A balise group as one message: what it answers, and why it is refused. The definitions are in specs/, the laws in proofs/; the functions stand in
// the crates above this one, `message::message` before all.
#![tactic(auto)]

use format::{Kind, Refusal};

// Why a group is refused. `causeNumber` in specs/Groups.antt gives the number of each (docs/RULES.md).
#[derive(Clone, Copy, Debug, PartialEq, Eq)]
pub enum Cause {
    // there is no room for 264 packets
    Room,
    // a single telegram is refused, by its own rule
    Single(Kind),
    // the telegrams are not one group: identity, positions, or how many there are
    Identity,
    // the counters do not match
    Counters,
    // M_DUP names no balise, or one with other packets
    Copied,
    // a packet collides with an earlier one of the group
    Repeated,
}

// A refusal. `which` is an arrival number for a single telegram, an N_PIG for Copied and Repeated, and else 0.
#[derive(Clone, Copy, Debug, PartialEq, Eq)]
pub struct Fault {
    pub cause: Cause,
    pub which: usize,
    pub place: usize,
}
