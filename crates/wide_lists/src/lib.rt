// Lists whose groups are too wide for one window with N_ITER behind it. What `lists` says of the others holds of these.
#![tactic(auto)]

ghost use Rattle.std.specs.Prelude.{◌≡◌, ◌≤◌};
ghost use Rattle.std.proofs.Common.{rules};
ghost use Rattle.hops.specs.Hops.{counted, position_in};
ghost use Rattle.hops.proofs.Bounds.{position_small};
ghost use Rattle.wide_lists.specs.WideLists.{differing, speed_at, speeds_at, positions_at};
ghost use Rattle.wide_lists.specs.Laws.{speed_small, speed_inside};

use bits::{Cursor, behind};
use hops::{Hop, position};
use lists::{Group, Windowed, apart};
use packets::{Position, Speed};

// ETCS-27, behind its Q_SCALE.
pub fn speeds(s: &[u8], n: usize, start: Cursor, end: usize) -> Option<usize>
    ensures { result ≡ counted (speeds_at s.now n end start.at) }
{
    apart::<Stretch>(s, n, start, end, Speed::HEAD, 4)
}

// ETCS-79, behind its Q_SCALE.
pub fn positions(s: &[u8], n: usize, start: Cursor, end: usize) -> Option<usize>
    ensures { result ≡ counted (positions_at s.now n end start.at) }
{
    apart::<Place>(s, n, start, end, Position::HEAD, 4)
}

// Of ETCS-79.
struct Place;

impl Windowed for Place {
    const WIDTH: usize = 51;

    ghost WIDTH = { 51 };

    ghost hop = { position_in };

    ghost hop_small = { position_small };

    ghost narrow = { Prim.search rules };

    fn hop(w: u64) -> Option<Hop> {
        Some(position(w))
    }
}

// Of ETCS-27: its inner list is gone over too.
struct Stretch;

impl Group for Stretch {
    ghost at = { speed_at };

    ghost small = { speed_small };

    ghost inside = { speed_inside };

    fn find(s: &[u8], n: usize, c: Cursor) -> Option<Hop> {
        if 830 < n {
            return None;
        }
        let (w, inner) = c.ahead(s, n, 28)?;
        let times = behind(w, 23, 5);
        if !differ(s, n, inner, times) {
            return None;
        }
        let k = times as usize;
        Some(Hop {
            bits: 28 + 11 * k,
            values: 4 + 2 * k,
        })
    }
}

// Whether so many NC_DIFF keep their rule, the first of which stands here.
fn differ(s: &[u8], n: usize, first: Cursor, times: u64) -> bool
    requires { n ≤ 830 }
    ensures { result ≡ differing s.now n times first.at }
{
    let mut c = first;
    for _ in 0..times {
        let Some((v, next)) = c.take(s, n, 4) else {
            return false;
        };
        if 2 < v {
            return false;
        }
        c = Cursor { at: next.at + 7 };
    }
    true
}
