// Lines of the characters 0 and 1, packed into the bytes of the bit string that they write; and the character of a bit.
#![tactic(auto)]

ghost use Rattle.std.specs.Prelude.{◌≡◌, ◌+◌, ◌*◌, ◌≤◌, length, drop, get_or};
ghost use Rattle.bits.specs.Bits.{value_of, filled, bytes_for};
ghost use Rattle.bits.specs.Take.{taken_at};
ghost use Rattle.packing.specs.Packing.{is_bit, binary, bit_of, bits_in, bytes_over, Pack, character_in};

use bits::Cursor;

// Why nothing is packed: the text is not what was looked for, or what is lent is too short.
#[derive(Clone, Copy, Debug, PartialEq, Eq)]
pub enum PackError {
    Other,
    Room,
}

// Packs the characters 0 and 1 of a line into the front of out, the first into the highest bit of byte 0, fills the last byte
// with 0, and answers how many there were. With another character, or no room in out, it writes nothing.
pub fn pack(line: &[u8], out: &mut [u8]) -> Result<usize, PackError>
    ensures { Pack line.now out.old result out.new }
{
    if !binary(line) {
        return Err(PackError::Other);
    }
    let k = bits::bytes_for(line.len());
    if out.len() < k {
        return Err(PackError::Room);
    }
    fill(line, k, out);
    Ok(line.len())
}

// Whether every character is 0 or 1. The loop goes on behind another character, so that the compiler can take many at a time.
fn binary(line: &[u8]) -> bool
    ensures { result ≡ binary line.now }
{
    let mut good = true;
    for c in line {
        if !is_bit(*c) {
            good = false;
        }
    }
    good
}

// Whether a character is 0 or 1.
fn is_bit(c: u8) -> bool
    ensures { result ≡ is_bit c }
{
    matches!(c, b'0'..=b'1')
}

// Writes the k bytes of a line into the front of out.
fn fill(line: &[u8], k: usize, out: &mut [u8])
    requires { (k ≡ bytes_for (length line.now)) × (k ≤ length out.old) }
    ensures { out.new ≡ bytes_over line.now out.old }
{
    for i in 0..k {
        out[i] = byte_at(line, 8 * i);
    }
}

// The byte of the eight characters from at on. Behind the last character each bit is 0.
fn byte_at(line: &[u8], at: usize) -> u8
    requires { at ≤ length line.now }
    ensures { result ≡ value_of (filled 8 (drop at (bits_in line.now))) }
{
    if line.len() - at < 8 {
        return last_at(line, at);
    }
    whole_at(line, at)
}

// The same where there are eight: no character asks where the line ends, which the compiler makes straight code of.
fn whole_at(line: &[u8], at: usize) -> u8
    requires { at + 8 ≤ length line.now }
    ensures { result ≡ value_of (filled 8 (drop at (bits_in line.now))) }
{
    let mut v: u64 = 0;
    for j in 0..8 {
        let bit = bit_of(line[at + j]);
        v = 2 * v + bit;
    }
    v as u8
}

// The same at the end of a line.
fn last_at(line: &[u8], at: usize) -> u8
    requires { at ≤ length line.now }
    ensures { result ≡ value_of (filled 8 (drop at (bits_in line.now))) }
{
    let mut v: u64 = 0;
    for j in 0..8 {
        let bit = bit_at(line, at, j);
        v = 2 * v + bit;
    }
    v as u8
}

// The bit that the character j places behind at writes, 0 where there is none.
fn bit_at(line: &[u8], at: usize, j: usize) -> u64
    requires { at ≤ length line.now }
    ensures { result ≡ get_or (drop at (bits_in line.now)) j 0 }
{
    if line.len() - at <= j {
        return 0;
    }
    bit_of(line[at + j])
}

// The bit that a character writes.
fn bit_of(c: u8) -> u64
    ensures { result ≡ bit_of c }
{
    if c == b'1' { 1 } else { 0 }
}

// The character of the bit at a position among the first n of s; where there is none, 0.
pub fn character(s: &[u8], n: usize, at: usize) -> u8
    ensures { result ≡ character_in (taken_at s.now n 1 at) }
{
    let c = Cursor { at };
    let Some((bit, _)) = c.take(s, n, 1) else {
        return b'0';
    };
    if bit == 1 { b'1' } else { b'0' }
}
