// Words of 64 bits: how many bits and bytes a number takes, and its parts. Every function answers every input.
#![tactic(auto)]

ghost use Rattle.std.specs.Prelude.{◌≡◌, ◌||◌, ◌+◌, ◌-◌, ◌*◌, ◌/◌, ◌%◌, ◌^◌, min, ltb};

// Whether a value fits into a field of width bits.
pub fn fits(value: u64, width: usize) -> bool
    ensures { result ≡ ltb value (2 ^ width) }
{
    if 63 < width {
        return true;
    }
    value >> width == 0
}

// How many bytes n bits take: n / 8, rounded up. No sum here can wrap, whatever n is.
pub fn bytes_for(n: usize) -> usize
    ensures { result ≡ (n + 7) / 8 }
{
    n / 8 + (n % 8 + 7) / 8
}

// Whether a field of width bits is too wide for a window, which is four bytes of so many: one of 25 bits lies in four bytes wherever it
// begins.
pub fn wide(bytes: usize, width: usize) -> bool
    ensures { result ≡ (ltb 25 width || ltb bytes 4) }
{
    if 25 < width {
        return true;
    }
    bytes < 4
}

// The four bytes of a window as one number, the first its highest.
pub fn window(a: u8, b: u8, c: u8, d: u8) -> u64
    ensures { result ≡ ((a * 2 ^ 8 + b) * 2 ^ 8 + c) * 2 ^ 8 + d }
{
    (a as u64) << 24 | (b as u64) << 16 | (c as u64) << 8 | d as u64
}

// The number of the t lowest bits of x.
pub fn low_bits(x: u64, t: usize) -> u64
    ensures { result ≡ x % 2 ^ t }
{
    if 63 < t {
        return x;
    }
    x & ((1u64 << t) - 1)
}

// The lower of two numbers.
pub fn lower(a: usize, b: usize) -> usize
    ensures { result ≡ min a b }
{
    if a < b { a } else { b }
}

// The b bits of w that stand behind its o highest.
pub fn behind(w: u64, o: usize, b: usize) -> u64
    ensures { result ≡ w * 2 ^ o % 2 ^ 64 / 2 ^ (64 - b) }
{
    if 63 < o {
        return 0;
    }
    if b == 0 {
        return 0;
    }
    (w << o) >> (64 - lower(b, 64))
}
