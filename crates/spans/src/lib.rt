// Whole packets by their kinds: how many values one has that keeps every rule but the tenth, found by a window for each few fields.
//
// The promise says what stands in the bytes, whatever they are (specs/Spans.antt). A packet that is counted here keeps its rules, field by field: that is a law above
// this crate. One that is not counted is left to the machine, which finds its refusal.
#![tactic(auto)]

ghost use Rattle.std.specs.Prelude.{◌≡◌, true, ◌+◌, ◌*◌, ◌/◌, ◌%◌, ◌^◌, ◌≤◌};
ghost use Rattle.hops.specs.Hops.{counted};
ghost use Rattle.bodies.specs.Bodies.{sized_by};
ghost use Rattle.spans.specs.Spans.{or_zero, plain, scaled_by, user_at, national_at, kind_at, packet_at};

use bits::{Cursor, behind};
use bodies::{restricted, sized, stopping, text, track, with_radio};
use packets::{
    Circuits, Conditional, Default, Gradient, Level, Linking, National, Position, Restriction,
    Reversing, Session, Shunting, Sight, Speed, Stopping, Text, Track, Transition, Turnout,
};

// A packet: how many values it has, and whether it is in metres or has no scale. It has 0 where it is not counted, and no Option: `packet` promises both so (packet_at),
// and the theorems of `counted` and `passing` are about that number. metric is no tag of it, but what Q_SCALE says.
#[derive(Clone, Copy)]
pub struct Span {
    pub values: usize,
    pub metric: bool,
}

// The packet of so many bits that begins at the cursor, in the first n bits of s. w: the window there.
pub fn packet(s: &[u8], n: usize, start: Cursor, long: usize, w: u64) -> Span
    ensures { result ≡ packet_at s.now n start.at long w }
{
    if 830 < n {
        return plain(None);
    }
    let Some(end) = start.skip(n, long) else {
        return plain(None);
    };
    if 2 < behind(w, 8, 2) {
        return plain(None);
    }
    kind(s, n, start, end.at, long, w)
}

// By its NID_PACKET. The six stand apart and are no struct: nearly each arm hands them on one by one, and with `self.` before each the table of kinds no longer reads as one.
fn kind(s: &[u8], n: usize, start: Cursor, end: usize, long: usize, w: u64) -> Span
    requires { (n ≤ 830) × (long ≤ 830) }
    ensures { result ≡ kind_at s.now n end start.at long w (w * 2 ^ 0 % 2 ^ 64 / 2 ^ 56) }
{
    let q = behind(w, 23, 2);
    match behind(w, 0, 8) {
        Linking::ID => scaled(q, lists::links(s, n, start, end)),
        Gradient::ID => scaled(q, gradients(long, behind(w, 49, 5))),
        Speed::ID => scaled(q, wide_lists::speeds(s, n, start, end)),
        Level::ID => scaled(q, lists::levels(s, n, start, end)),
        Session::ID => plain(with_radio(s, n, start, 48, long, 113, 8)),
        National::ID => national(s, n, start, end, long, w),
        Conditional::ID => plain(lists::choices(s, n, start, end)),
        Track::ID => scaled(q, track(s, n, start, end, long, behind(w, 25, 1))),
        Text::ID => scaled(q, text(s, n, start, end, behind(w, 25, 2))),
        Position::ID => scaled(q, wide_lists::positions(s, n, start, end)),
        Transition::ID => scaled(q, with_radio(s, n, start, 64, long, 129, 9)),
        Shunting::ID => plain(sized(long, 24, 4)),
        Sight::ID => plain(sized(long, 24, 4)),
        Default::ID => plain(sized(long, 23, 3)),
        _ => plain(None),
    }
}

// A packet that has no scale, or is not counted.
fn plain(values: Option<usize>) -> Span
    ensures { result ≡ plain (or_zero values) }
{
    Span {
        values: values.unwrap_or(0),
        metric: true,
    }
}

// A packet with this Q_SCALE, of which 1 stands for metres.
fn scaled(q: u64, values: Option<usize>) -> Span
    ensures { result ≡ scaled_by q (or_zero values) }
{
    if 2 < q {
        return plain(None);
    }
    Span {
        values: values.unwrap_or(0),
        metric: q == 1,
    }
}

// ETCS-21: D_GRADIENT 15, Q_GDIR 1 and G_A 8, and so many groups of these more, of which no rule reads anything.
fn gradients(long: usize, times: u64) -> Option<usize>
    requires { times ≤ 31 }
    ensures { result ≡ counted (sized_by long (54 + 24 * times) (8 + 3 * times)) }
{
    let k = times as usize;
    sized(long, 54 + 24 * k, 8 + 3 * k)
}

// ETCS-44: the CTCS packet inside it has its Q_DIR, and ends where it does.
fn national(s: &[u8], n: usize, start: Cursor, end: usize, long: usize, w: u64) -> Span
    ensures { result ≡ national_at s.now n end start.at long w }
{
    if behind(w, 32, 2) != behind(w, 8, 2) {
        return plain(None);
    }
    if long != behind(w, 34, 13) as usize + 23 {
        return plain(None);
    }
    user(s, n, start, end, long, w)
}

// By its NID_XUSER.
fn user(s: &[u8], n: usize, start: Cursor, end: usize, long: usize, w: u64) -> Span
    ensures { result ≡ user_at s.now n end start.at long w (w * 2 ^ 23 % 2 ^ 64 / 2 ^ 55) }
{
    let q = behind(w, 47, 2);
    match behind(w, 23, 9) {
        Circuits::ID => scaled(q, lists::circuits(s, n, start, end)),
        Restriction::ID => scaled(q, restricted(s, n, start, long)),
        Reversing::ID => scaled(q, sized(long, 79, 9)),
        Turnout::ID => scaled(q, sized(long, 71, 9)),
        Stopping::ID => plain(stopping(long, behind(w, 47, 1))),
        _ => plain(None),
    }
}
