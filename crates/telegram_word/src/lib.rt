// The telegram that a word of a line writes: its bytes put into what is lent, and n. The public function answers every input.
#![tactic(auto)]

ghost use Rattle.std.specs.Prelude.{◌≡◌, true, ◌++◌, ◌*◌, ◌≤◌, ◌<◌, ltb, length, take, drop};
ghost use Rattle.std.specs.List.{list_all};
ghost use Rattle.words.specs.Words.{up_to};
ghost use Rattle.telegram_word.specs.Telegrams.{hex_of, hexed, in_pairs, bytes_in, bits_form, hex_form, telegram_in, Lends};

use packing::PackError;

// Puts the bytes of a telegram word into the front of out, and answers how many there are, and n. Where the word is no telegram,
// or out has too little room, it writes nothing.
pub fn telegram(word: &[u8], out: &mut [u8]) -> Result<(usize, u64), PackError>
    ensures { Lends (telegram_in word.now) out.old result out.new }
{
    let colon = words::until(word, 0, b':');
    if colon < word.len() {
        return of_hex(word, colon, out);
    }
    of_bits(word, out)
}

// The same of the characters 0 and 1.
fn of_bits(word: &[u8], out: &mut [u8]) -> Result<(usize, u64), PackError>
    ensures { Lends (bits_form word.now) out.old result out.new }
{
    if word.len() < 1 {
        return Err(PackError::Other);
    }
    if 1024 < word.len() {
        return Err(PackError::Other);
    }
    let n = packing::pack(word, out)?;
    Ok((bits::bytes_for(n), n as u64))
}

// The same of a word whose first colon is known.
fn of_hex(word: &[u8], colon: usize, out: &mut [u8]) -> Result<(usize, u64), PackError>
    requires { (colon ≡ up_to 58 word.now) × (colon < length word.now) }
    ensures { Lends (hex_form word.now) out.old result out.new }
{
    if !in_pairs(word, colon) {
        return Err(PackError::Other);
    }
    let n = words::number(&word[colon + 1..]).ok_or(PackError::Other)?;
    let k = colon / 2;
    if out.len() < k {
        return Err(PackError::Room);
    }
    fill(word, k, out);
    Ok((k, n))
}

// Whether the characters in front of an end are those of 0 to 128 bytes, two each.
fn in_pairs(text: &[u8], end: usize) -> bool
    requires { end ≤ length text.now }
    ensures { result ≡ in_pairs (take end text.now) }
{
    if 256 < end {
        return false;
    }
    if end % 2 != 0 {
        return false;
    }
    hexed(&text[..end])
}

// Whether every character is hexadecimal.
fn hexed(text: &[u8]) -> bool
    ensures { result ≡ list_all (λ c. ltb (hex_of c) 16) text.now }
{
    text.iter().all(|c| digit(*c) < 16)
}

// What a character 0 to 9, A to F or a to f stands for, and 16 for any other.
fn digit(c: u8) -> u8
    ensures { result ≡ hex_of c }
{
    match c {
        b'0'..=b'9' => c - b'0',
        b'A'..=b'F' => 10 + (c - b'A'),
        b'a'..=b'f' => 10 + (c - b'a'),
        _ => 16,
    }
}

// Writes the first k bytes of a text, two characters each, into the front of out.
fn fill(text: &[u8], k: usize, out: &mut [u8])
    requires { (2 * k ≤ length text.now) × (hexed (take (2 * k) text.now) ≡ true) × (k ≤ length out.old) }
    ensures { out.new ≡ bytes_in (take (2 * k) text.now) ++ drop k out.old }
{
    for i in 0..k {
        out[i] = 16 * digit(text[2 * i]) + digit(text[2 * i + 1]);
    }
}
