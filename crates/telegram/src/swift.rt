// The swift way of the check: the header and whole packets at once, as long as each keeps its rules and collides with none before it.
//
// What it passes is right; what it does not take is left to the machine, which goes on from where it stands and finds the refusal.
ghost use Rattle.std.specs.Prelude.{true, ◌≡◌, ◌*◌, ◌≤◌, length};
ghost use Rattle.passing.proofs.Sweeping.{Edge};
ghost use Rattle.telling.proofs.Hopped.{Hopped};
ghost use Rattle.telegram.specs.Finding.{SweptTo};

use crate::earlier::FRONT;
use crate::reader::Found;
use bits::{Cursor, behind};
use front::header;
use lookback::{Middle, collides_from_both};
use packets::heads::OUTER_HEAD;

// Where it ends: behind the end mark; or before the packet or the end mark at the bit at, after so many values, and at 0 where not even the header is passed.
#[derive(Clone, Copy)]
pub(crate) enum Swept {
    Over(Found),
    Stopped { at: usize, count: usize },
}

// The end mark.
const LAST: u64 = 255;

// Goes over the first n bits of s.
pub(crate) fn sweep(s: &[u8], n: usize) -> Swept
    requires { (n ≤ 830) × (n ≤ 8 * length s.now) }
    ensures { SweptTo s.now n result }
{
    let Some(front) = header(s, n) else {
        return Swept::Stopped { at: 0, count: 0 };
    };
    let mut c = Cursor { at: front.at };
    let mut mid = Middle {
        at: front.at,
        late: false,
    };
    let mut count = FRONT;
    let mut metric = true;
    loop {
        let Some((w, _)) = c.ahead(s, n, OUTER_HEAD) else {
            return ended(s, n, c, count, metric);
        };
        let long = behind(w, 10, 13) as usize;
        let p = spans::packet(s, n, c, long, w);
        if p.values == 0 {
            return Swept::Stopped { at: c.at, count };
        }
        if collides_from_both(s, mid.at, c.at, behind(w, 0, 8), behind(w, 8, 2)) {
            return Swept::Stopped { at: c.at, count };
        }
        mid = mid.moved(s);
        c = Cursor { at: c.at + long };
        count += p.values;
        metric = metric & p.metric;
    }
}

// Behind the last packet.
fn ended(s: &[u8], n: usize, c: Cursor, count: usize, metric: bool) -> Swept
    requires { Edge s.now n c.at count × (metric ≡ true → Hopped s.now 50 c.at) }
    ensures { SweptTo s.now n result }
{
    let Some((w, next)) = c.ahead(s, n, 8) else {
        return Swept::Stopped { at: c.at, count };
    };
    if next.at != n {
        return Swept::Stopped { at: c.at, count };
    }
    if behind(w, 0, 8) != LAST {
        return Swept::Stopped { at: c.at, count };
    }
    Swept::Over(Found {
        count: count + 1,
        metric,
    })
}
