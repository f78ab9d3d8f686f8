// One group of a list, by the window at its first bit: how many bits and how many values it has.
//
// docs/RULES.md, "Packets", has the fields. Which rules a group breaks is not told: one that breaks a rule is None here, and has no bit in specs/Hops.antt.
#![tactic(auto)]

ghost use Rattle.std.specs.Prelude.{◌≡◌, ◌≤◌};
ghost use Rattle.hops.specs.Hops.{kept, counted, link_in, level_in, leveled, condition_in, position_in, circuit_in};

use bits::behind;

// The bits of an N_ITER.
pub const N_ITER: usize = 5;

// A group that keeps its rules: how many bits and how many values it has.
#[derive(Clone, Copy)]
pub struct Hop {
    pub bits: usize,
    pub values: usize,
}

// Of ETCS-5: D_LINK 15, Q_NEWCOUNTRY 1, NID_C 10 only if that is 1, NID_BG 14, Q_LINKORIENTATION 1, Q_LINKREACTION 2, Q_LOCACC 6.
pub fn link(w: u64) -> Option<Hop>
    ensures { result ≡ kept (link_in w) }
{
    let c = behind(w, 15, 1) as usize;
    if 2 < behind(w, 31 + 10 * c, 2) {
        return None;
    }
    Some(Hop {
        bits: 39 + 10 * c,
        values: 6 + c,
    })
}

// How many bits a level takes: M_LEVELTR or M_LEVELTEXTDISPLAY 3, no greater than most, and NID_STM 8 only if that is 1. None where a rule is broken.
pub fn level(w: u64, most: u64) -> Option<usize>
    ensures { result ≡ counted (level_in most w) }
{
    let l = behind(w, 0, 3);
    if l == 1 {
        let stm = behind(w, 3, 8);
        if stm == 0 {
            return None;
        }
        if 3 < stm {
            return None;
        }
        return Some(11);
    }
    if most < l {
        return None;
    }
    Some(3)
}

// Of ETCS-41: a level, and L_ACKLEVELTR 15.
pub fn transition(w: u64) -> Option<Hop>
    ensures { result ≡ kept (leveled (level_in 4 w) 15 2) }
{
    Some(with_level(level(w, 4)?, 15, 2))
}

// Of ETCS-46: a level.
pub fn choice(w: u64) -> Option<Hop>
    ensures { result ≡ kept (leveled (level_in 4 w) 0 1) }
{
    Some(with_level(level(w, 4)?, 0, 1))
}

// A level of so many bits with what follows it: so many bits more, and so many fields in all beside NID_STM.
fn with_level(bits: usize, more: usize, fields: usize) -> Hop
    requires { (1 ≤ bits) × (bits ≤ 11) × (more ≤ 15) × (fields ≤ 2) }
    ensures { result ≡ leveled bits more fields }
{
    Hop {
        bits: bits + more,
        values: fields + bits / 8,
    }
}

// Of ETCS-68: D_TRACKCOND 15, L_TRACKCOND 15, M_TRACKCOND 4.
pub fn condition(w: u64) -> Option<Hop>
    ensures { result ≡ kept (condition_in w) }
{
    if 9 < behind(w, 30, 4) {
        None
    } else {
        Some(Hop {
            bits: 34,
            values: 3,
        })
    }
}

// Of ETCS-79: Q_NEWCOUNTRY 1, NID_C 10 only if that is 1, NID_BG 14, D_POSOFF 15, Q_MPOSITION 1, M_POSITION 20.
pub fn position(w: u64) -> Hop
    ensures { result ≡ position_in w }
{
    let c = behind(w, 0, 1) as usize;
    Hop {
        bits: 51 + 10 * c,
        values: 5 + c,
    }
}

// Of CTCS-1: NID_SIGNAL 4, NID_FREQUENCY 5, L_SECTION 15.
pub fn circuit(w: u64) -> Option<Hop>
    ensures { result ≡ kept (circuit_in w) }
{
    if 7 < behind(w, 0, 4) {
        return None;
    }
    if 12 < behind(w, 4, 5) {
        return None;
    }
    Some(Hop {
        bits: 24,
        values: 3,
    })
}
