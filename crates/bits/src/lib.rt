// Fields of bits inside bytes, the highest bit of byte 0 first.
//
// `Cursor::take` reads a field, by way of a window of four bytes where one holds the field, and else a byte at a time; `Cursor::skip` goes
// past bits unread; `Cursor::ahead` takes what lies ahead in one number, in which `behind` finds fields. No public function asks anything of its caller: every position, width, count and slice length has its answer, and
// the definitions in specs/ say which. They define the writing of a field too.
#![tactic(auto)]

ghost use Rattle.std.specs.Prelude.{◌≡◌, ◌^◌, ◌+◌, ◌*◌, ◌≤◌, ◌<◌, length};
ghost use Rattle.bits.specs.Bits.{value_of};
ghost use Rattle.bits.specs.Ahead.{in_sight, ahead_at, seen_at};
ghost use Rattle.bits.specs.Take.{inside, field_bits, taken_at, skip_at};

pub use word64::{behind, bytes_for, fits};
use word64::{low_bits, lower, wide, window};

// A position in a bit string: how many bits lie before it.
#[derive(Clone, Copy)]
pub struct Cursor {
    pub at: usize,
}

impl Cursor {
    // The field of width bits that begins here in the first n bits of s, with the cursor moved on. None where the width is
    // above 64, where the field would end past bit n, and where s does not hold n bits.
    //
    // None has one return and Some one: the compiler then makes this code part of its caller.
    pub fn take(self, s: &[u8], n: usize, width: usize) -> Option<(u64, Cursor)>
        ensures { result ≡ taken_at s.now n width self.at }
    {
        let at = self.at;
        if !inside(s, n, at, width) {
            return None;
        }
        let v = if wide(s.len(), width) {
            joined(s, at, width)
        } else {
            windowed(s, at, width)
        };
        Some((v, Cursor { at: at + width }))
    }

    // The cursor moved on past so many of the first n bits, whatever they hold. None where that would be past bit n.
    pub fn skip(self, n: usize, bits: usize) -> Option<Cursor>
        ensures { result ≡ skip_at n bits self.at }
    {
        let at = self.at;
        if n < at {
            return None;
        }
        if n - at < bits {
            return None;
        }
        Some(Cursor { at: at + bits })
    }

    // What lies ahead: a number of 64 bits in which the bits from here on stand in front, 57 of them or all that s has, with the cursor moved on past
    // so many of them. None where not one is to be gone past or more than 57 are, where the cursor would be past bit n, and where s does not hold n
    // bits or has fewer than eight bytes.
    pub fn ahead(self, s: &[u8], n: usize, bits: usize) -> Option<(u64, Cursor)>
        ensures { result ≡ ahead_at s.now n bits self.at }
    {
        let at = self.at;
        if !in_sight(s, n, at, bits) {
            return None;
        }
        let k = lower(at / 8, s.len() - 8);
        let w = eight(s, k) << (at - 8 * k);
        Some((w, Cursor { at: at + bits }))
    }

    // What lies here: the same number, with 0 for each bit that s does not have. 0 where s has fewer than eight bytes.
    pub fn look(self, s: &[u8]) -> u64
        ensures { result ≡ seen_at s.now self.at }
    {
        if s.len() < 8 {
            return 0;
        }
        let k = lower(self.at / 8, s.len() - 8);
        let o = self.at - 8 * k;
        if 63 < o {
            return 0;
        }
        eight(s, k) << o
    }
}

// Whether so many bits at the bit at of the first n bits of s lie in one window of eight bytes.
fn in_sight(s: &[u8], n: usize, at: usize, bits: usize) -> bool
    ensures { result ≡ in_sight s.now n bits at }
{
    if bits == 0 {
        return false;
    }
    if 57 < bits {
        return false;
    }
    if s.len() < 8 {
        return false;
    }
    inside(s, n, at, bits)
}

// The eight bytes of s from k on as one number, the first its highest.
fn eight(s: &[u8], k: usize) -> u64
    requires { k + 8 ≤ length s.now }
    ensures { result ≡ value_of (field_bits s.now 64 (8 * k)) }
{
    let high = window(s[k], s[k + 1], s[k + 2], s[k + 3]);
    let low = window(s[k + 4], s[k + 5], s[k + 6], s[k + 7]);
    high << 32 | low
}

// Whether a whole field of width bits lies at the bit at of the first n bits of s.
fn inside(s: &[u8], n: usize, at: usize, width: usize) -> bool
    ensures { result ≡ inside s.now n width at }
{
    if 64 < width {
        return false;
    }
    if n < at {
        return false;
    }
    if n - at < width {
        return false;
    }
    bytes_for(n) <= s.len()
}

// The number of the field of width bits at the bit at, joined of its parts in each byte.
fn joined(s: &[u8], at: usize, width: usize) -> u64
    requires { (width ≤ 64) × (at + width < 2 ^ 64) × (at + width ≤ 8 * length s.now) }
    ensures { result ≡ value_of (field_bits s.now width at) }
{
    let mut v: u64 = 0;
    let mut got = 0;
    while got < width {
        let k = at + got;
        let t = lower(width - got, 8 - k % 8);
        let low = 8 - k % 8 - t;
        v = (v << t) | low_bits(s[k / 8] as u64 >> low, t);
        got += t;
    }
    v
}

// The same number as a part of the window around the field. The compiler makes one load of a window, where the loop takes a
// turn for each byte.
fn windowed(s: &[u8], at: usize, width: usize) -> u64
    requires { (width ≤ 25) × (4 ≤ length s.now) × (at + width ≤ 8 * length s.now) }
    ensures { result ≡ value_of (field_bits s.now width at) }
{
    let k = lower(at / 8, s.len() - 4);
    let low = 32 - (at - 8 * k) - width;
    low_bits(window(s[k], s[k + 1], s[k + 2], s[k + 3]) >> low, width)
}
