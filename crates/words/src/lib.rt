// Words of a line: where one ends, and the number that one writes. Every public function answers every input.
#![tactic(auto)]

ghost use Rattle.std.specs.Prelude.{◌≡◌, true, ◌+◌, ◌≤◌, length, drop};
ghost use Rattle.words.specs.Words.{up_to, word_end, number_in};

// Where the word that begins at a position ends: at the next space, or where the line does.
pub fn word_end(line: &[u8], at: usize) -> usize
    ensures { result ≡ word_end line.now at }
{
    until(line, at, b' ')
}

// The first place from at on that holds a character, or where the text ends. Sixteen characters at a time are told free of it.
pub fn until(text: &[u8], at: usize, c: u8) -> usize
    ensures { result ≡ at + up_to c (drop at text.now) }
{
    let mut i = at;
    while i < text.len() {
        if free(text, i, c) {
            i += 16;
            continue;
        }
        if text[i] == c {
            return i;
        }
        i += 1;
    }
    i
}

// Whether there are sixteen characters from at on, and none of them is c. The loop goes on behind one that is, so that the compiler can take
// all at a time.
fn free(text: &[u8], at: usize, c: u8) -> bool
    requires { at ≤ length text.now }
    ensures { result ≡ true → (at + 16 ≤ length text.now) × (up_to c (drop at text.now) ≡ 16 + up_to c (drop (at + 16) text.now)) }
{
    if text.len() - at < 16 {
        return false;
    }
    let mut none = true;
    for j in 0..16 {
        if text[at + j] == c {
            none = false;
        }
    }
    none
}

// The number below 2^64 that the whole word is.
pub fn number(word: &[u8]) -> Option<u64>
    ensures { result ≡ number_in word.now }
{
    let (v, end) = parse::decimal_at(word, 0)?;
    if end != word.len() {
        return None;
    }
    Some(v)
}
