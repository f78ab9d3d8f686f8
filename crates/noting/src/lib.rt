// What later rules go by: what a packet's values leave for them, whether a packet that ends is as long as it said, and where what a
// refusal points at begins.
#![tactic(auto)]

ghost use Rattle.std.specs.Prelude.{◌≡◌, ◌-◌, ◌%◌, ◌^◌, List};
ghost use Rattle.format.specs.Rules.{Earlier, spot_of, place_from};
ghost use Rattle.format.specs.Rules as rules;
ghost use Rattle.states.specs.Machine.{Noted, context_of, level_of};

use format::{Kind, Spot};
use packets::heads::{INNER_L_PACKET, OUTER_L_PACKET};
use states::codes::{DIRECTION, PACKET, PIG, SIZE, USER};
use states::{Level, State};

// ---- what a value leaves for later rules

fn directed(s: State, v: u64) -> State
    ensures { Noted s 9 v result }
{
    match s.level {
        Level::Header | Level::User => s,
        Level::Packet => State { dir: v, ..s },
    }
}

fn measured(s: State, v: u64) -> State
    ensures { Noted s 3 v result }
{
    match s.level {
        Level::Header => s,
        Level::Packet => State { long: v, ..s },
        Level::User => State { userlong: v, ..s },
    }
}

// What the rules after a field with the code c go by.
pub fn noted(s: State, c: u32, v: u64) -> State
    ensures { Noted s c v result }
{
    match c {
        DIRECTION => directed(s, v),
        SIZE => measured(s, v),
        PACKET => State {
            level: Level::Packet,
            id: v,
            dir: 0,
            long: 0,
            userstart: 0,
            userlong: 0,
            ..s
        },
        USER => State {
            level: Level::User,
            userstart: s.at,
            userlong: 0,
            ..s
        },
        PIG => State { pig: v, ..s },
        _ => s,
    }
}

// ---- a packet's end

// Every packet that ends at the bit at is as long as its L_PACKET says, the inner one tested first.
pub fn closes(s: State, at: usize) -> bool
    ensures { (l : List Earlier) → result ≡ rules.closes at (context_of l s) (level_of s.level) }
{
    match s.level {
        Level::Header => true,
        Level::Packet => since(at, s.start) == s.long,
        Level::User => {
            if since(at, s.userstart) != s.userlong {
                return false;
            }
            since(at, s.start) == s.long
        }
    }
}

// The bits from one place to another, none where the other is before.
fn since(at: usize, from: usize) -> u64
    ensures { result ≡ at - from }
{
    at.saturating_sub(from) as u64
}

// ---- a refusal

// The bit where what a refusal points at begins, found at the field that is due, which ends at the bit end. A packet of a telegram begins
// before bit 830; any other number is answered too, as the machine counts.
pub fn place(kind: Kind, s: State, end: usize) -> usize
    ensures { (l : List Earlier) → result ≡ place_from kind s.at end (context_of l s) % 2 ^ 64 }
{
    match spot(kind, s, end) {
        Spot::Due => s.at,
        Spot::Behind => end,
        Spot::Outer => s.start.wrapping_add(OUTER_L_PACKET),
        Spot::Inner => s.userstart.wrapping_add(INNER_L_PACKET),
    }
}

// What it points at.
fn spot(kind: Kind, s: State, end: usize) -> Spot
    ensures { (l : List Earlier) → result ≡ spot_of kind end (context_of l s) }
{
    match kind {
        Kind::Length => misfit(s, end),
        Kind::Trailing => Spot::Behind,
        _ => Spot::Due,
    }
}

// The L_PACKET that is wrong where a packet ends at the bit end, the inner one tested first.
fn misfit(s: State, end: usize) -> Spot
    ensures { (l : List Earlier) → result ≡ rules.misfit end (context_of l s) }
{
    match s.level {
        Level::Header => Spot::Due,
        Level::Packet => Spot::Outer,
        Level::User => {
            if since(end, s.userstart) != s.userlong {
                return Spot::Inner;
            }
            Spot::Outer
        }
    }
}
