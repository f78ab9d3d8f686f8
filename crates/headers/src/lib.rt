// Numbers in telegrams that lie one behind the other in one buffer, each from a byte of its own.
//
// No function asks anything of its caller: where the bytes do not hold what is looked for, the definitions in specs/ say what it finds.
#![tactic(auto)]

ghost use Rattle.std.specs.Prelude.{◌≡◌, ◌+◌, ◌*◌, ◌≤◌, leb, length, take, drop};
ghost use Rattle.bits.specs.Bits.{bits_of, same};
ghost use Rattle.headers.specs.Headers.{number_at, front_of, belongs_to, same_bodies, counters_match, latest_of};

use bits::{Cursor, bytes_for};
use word64::window;

// The M_MCOUNT that matches any other.
const ANY: u64 = 255;

// The bits that are compared at once, at most: no more than a window holds.
const AT_ONCE: usize = 25;

// The number in the width bits from a bit on, of the n bits that lie from the byte start on. It is 0 where they are not there, and no Option, since
// `number_at` says so of every number that is asked for here.
fn field(s: &[u8], start: usize, n: usize, bit: usize, width: usize) -> u64
    ensures { result ≡ number_at (drop start s.now) n bit width }
{
    let Some(t) = s.get(start..) else {
        return 0;
    };
    (Cursor { at: bit }).take(t, n, width).map_or(0, |(v, _)| v)
}

// The first 32 bits of the telegram at the byte start, in which N_PIG, N_TOTAL, M_DUP and M_MCOUNT stand. The compiler makes one load of them.
// It is 0 where there are not the 8 bytes of the shortest telegram, as it is for every other number of a header (`front_of`).
pub fn front(s: &[u8], start: usize) -> u64
    ensures { result ≡ front_of (drop start s.now) }
{
    let Some(t) = s.get(start..) else {
        return 0;
    };
    let &[a, b, c, d, _, _, _, _, ..] = t else {
        return 0;
    };
    window(a, b, c, d)
}

// The NID_C, NID_BG and Q_LINK of the telegram at the byte start, as one number: they stand side by side.
pub fn identity(s: &[u8], start: usize) -> u64
    ensures { result ≡ number_at (drop start s.now) 58 25 25 }
{
    field(s, start, 58, 25, 25)
}

// Whether the telegram at the byte start has this identity and this N_TOTAL.
pub fn belongs(s: &[u8], start: usize, whose: u64, total: u64) -> bool
    ensures { result ≡ belongs_to (drop start s.now) whose total }
{
    whose == identity(s, start) && field(s, start, 58, 12, 3) == total
}

// Whether the n bits from the byte a on and the m bits from the byte b on are the same behind a header.
pub fn same_body(s: &[u8], a: usize, n: usize, b: usize, m: usize) -> bool
    ensures { result ≡ same_bodies (drop a s.now) n (drop b s.now) m }
{
    n == m && holds(s, a, n) && holds(s, b, n) && same_from(s, a, b, n)
}

// Whether n bits lie from the byte start on.
fn holds(s: &[u8], start: usize, n: usize) -> bool
    ensures { result ≡ leb n (8 * length (drop start s.now)) }
{
    bytes_for(n) <= s.len().saturating_sub(start)
}

// The same of two that are there, part by part.
fn same_from(s: &[u8], a: usize, b: usize, n: usize) -> bool
    requires { (n ≤ 8 * length (drop a s.now)) × (n ≤ 8 * length (drop b s.now)) }
    ensures { result ≡ same (drop 50 (take n (bits_of (drop a s.now)))) (drop 50 (take n (bits_of (drop b s.now)))) }
{
    let mut at = 50;
    while at < n {
        let w = (n - at).min(AT_ONCE);
        if field(s, a, n, at, w) != field(s, b, n, at, w) {
            return false;
        }
        at += w;
    }
    true
}

// Whether two counters match: one of them says that it matches any, or they are the same.
pub fn counters_match(a: u64, c: u64) -> bool
    ensures { result ≡ counters_match a c }
{
    a == ANY || c == ANY || a == c
}

// The counter that those to come must match, after a and then c.
pub fn latest(a: u64, c: u64) -> u64
    ensures { result ≡ latest_of a c }
{
    if c == ANY { a } else { c }
}
