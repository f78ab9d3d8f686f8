// What packets hold that are no list to their end: how many values one has whose rules behind its head are kept.
//
// Every promise says what stands in the bytes, whatever they are (specs/Bodies.antt). Each function is given the first n bits of s and a packet that begins at the
// cursor, so long or ending at the bit end; it is None where a rule is broken, or where the packet is not as long as its fields.
// s and n are no struct: n counts bits of a telegram, and `bits::Cursor` takes them apart.
#![tactic(auto)]

ghost use Rattle.std.specs.Prelude.{◌≡◌, ◌≤◌};
ghost use Rattle.hops.specs.Hops.{counted};
ghost use Rattle.bodies.specs.Bodies.{so_many, sized_by, radio_at, track_at, restricted_at, stopping_at, text_in, text_at};

use bits::{Cursor, behind};
use hops::level;

// So many values, where it is as long as it is to be.
pub fn sized(long: usize, wanted: usize, values: usize) -> Option<usize>
    ensures { result ≡ so_many values (sized_by long wanted 1) }
{
    if long == wanted {
        return Some(values);
    }
    None
}

// ETCS-42 and ETCS-131, whose NID_RADIO stands so many bits behind their beginning and is all that a rule reads there.
pub fn with_radio(
    s: &[u8],
    n: usize,
    start: Cursor,
    place: usize,
    long: usize,
    wanted: usize,
    values: usize,
) -> Option<usize>
    ensures { result ≡ so_many values (radio_at s.now n start.at place long wanted 1) }
{
    if long != wanted {
        return None;
    }
    let c = start.skip(n, place)?;
    let (high, next) = c.ahead(s, n, 32)?;
    let (low, _) = next.ahead(s, n, 32)?;
    if radio_number::allowed(behind(high, 0, 32) << 32 | behind(low, 0, 32)) {
        return Some(values);
    }
    None
}

// ETCS-68, with this Q_TRACKINIT.
pub fn track(
    s: &[u8],
    n: usize,
    start: Cursor,
    end: usize,
    long: usize,
    initial: u64,
) -> Option<usize>
    ensures { result ≡ counted (track_at s.now n end start.at long initial) }
{
    if initial == 1 {
        return sized(long, 41, 6);
    }
    lists::conditions(s, n, start, end)
}

// CTCS-2: a list of which no rule reads anything.
pub fn restricted(s: &[u8], n: usize, start: Cursor, long: usize) -> Option<usize>
    ensures { result ≡ counted (restricted_at s.now n start.at long) }
{
    let c = start.skip(n, 102)?;
    let (times, _) = c.take(s, n, 5)?;
    let k = times as usize;
    sized(long, 107 + 38 * k, 13 + 4 * k)
}

// CTCS-5, with this Q_STOP.
pub fn stopping(long: usize, stop: u64) -> Option<usize>
    ensures { result ≡ counted (stopping_at long stop) }
{
    if stop != 0 {
        return None;
    }
    sized(long, 48, 7)
}

// ETCS-72, with this Q_TEXTCLASS: two levels, and a text of which no rule reads anything.
pub fn text(s: &[u8], n: usize, start: Cursor, end: usize, class: u64) -> Option<usize>
    ensures { result ≡ counted (text_at s.now n end start.at class) }
{
    if 1 < class {
        return None;
    }
    let first = start.skip(n, 47)?;
    let (x, _) = first.ahead(s, n, 3)?;
    let bits = level(x, 5)?;
    let second = first.skip(n, bits + 29)?;
    let (y, _) = second.ahead(s, n, 3)?;
    characters(end, second, 15 + bits / 8, level(y, 5)?, y)
}

// From its second level on, which has so many bits: so many values stand before it.
fn characters(end: usize, second: Cursor, before: usize, bits: usize, w: u64) -> Option<usize>
    requires { (1 ≤ before) × (before ≤ 16) × (1 ≤ bits) × (bits ≤ 11) }
    ensures { result ≡ counted (text_in end second.at before bits w) }
{
    if 2 < behind(w, bits, 2) {
        return None;
    }
    if end < second.at {
        return None;
    }
    let k = behind(w, bits + 2, 8) as usize;
    sized(end - second.at, bits + 10 + 8 * k, before + bits / 8 + k)
}
