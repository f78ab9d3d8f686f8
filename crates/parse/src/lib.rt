// Numbers read from text. Every public function answers every input.
#![tactic(auto)]

ghost use Rattle.std.specs.Prelude.{◌≡◌, true, drop};
ghost use Rattle.pieces.specs.Numbers.{read_at, bounded, digits_from, decimal_in, is_place, place_of, sixteen_in};

// The decimal number at a position: a 0 by itself, or another digit and all digits behind it. One past 64 bits is none.
pub fn decimal_at(text: &[u8], at: usize) -> Option<(u64, usize)>
    ensures { result ≡ read_at at (decimal_in (drop at text.now)) }
{
    let c = *text.get(at)?;
    if c == b'0' {
        return Some((0, at + 1));
    }
    if !c.is_ascii_digit() {
        return None;
    }
    digits_at(text, at)
}

// The number that all the digits from a position on write, with any zeros in front; one of no digits is 0 and ends where it begins. One past
// 64 bits is none.
pub fn digits_at(text: &[u8], at: usize) -> Option<(u64, usize)>
    ensures { result ≡ read_at at (bounded (digits_from 0 0 (drop at text.now))) }
{
    let mut v: u64 = 0;
    for i in at..text.len() {
        let c = text[i];
        if !c.is_ascii_digit() {
            return Some((v, i));
        }
        let d = (c - b'0') as u64;
        if (u64::MAX - d) / 10 < v {
            return None;
        }
        v = 10 * v + d;
    }
    Some((v, at.max(text.len())))
}

// The number of sixteen places of four bits, each written as 0-9 or F.
pub fn places_at(text: &[u8], at: usize) -> Option<(u64, usize)>
    ensures { result ≡ read_at at (sixteen_in (drop at text.now)) }
{
    let mut v: u64 = 0;
    for k in 0..16 {
        let c = *text.get(at + k)?;
        if !is_place(c) {
            return None;
        }
        v = 16 * v + place(c);
    }
    Some((v, at + 16))
}

fn is_place(c: u8) -> bool
    ensures { result ≡ is_place c }
{
    matches!(c, b'0'..=b'9' | b'F')
}

// What a character 0-9 or F stands for.
fn place(c: u8) -> u64
    requires { is_place c ≡ true }
    ensures { result ≡ place_of c }
{
    if c == b'F' { 15 } else { (c - b'0') as u64 }
}
