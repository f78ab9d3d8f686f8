// The group that a line writes: its telegrams' bytes one behind the other put into what is lent, and the n of each. The public function answers
// every input.
#![tactic(auto)]

ghost use Rattle.std.specs.Prelude.{◌≡◌, ◌≤◌, length};
ghost use Rattle.std.proofs.Math.Option.{some};
ghost use Rattle.words.specs.Words.{words_in};
ghost use Rattle.telegram_word.specs.Telegrams.{telegram_in};
ghost use Rattle.group_words.specs.Lines.{most, those, telegrams_in, buffer_of, size_of, measured, bytes_over, counts_over, Collects};

use packing::PackError;

// No group has more telegrams.
const MOST: usize = 16;

// Puts the bytes of a line's telegrams into the front of bytes, one behind the other, and their n into the front of ns. Where the line is no group,
// or one of the two has too little room, it writes nothing.
pub fn collect(line: &[u8], bytes: &mut [u8], ns: &mut [usize]) -> Result<(usize, usize), PackError>
    ensures { Collects line.now bytes.old ns.old result bytes.new ns.new }
{
    if line.len() == 0 {
        return Ok((0, 0));
    }
    let (count, total) = measured(line).ok_or(PackError::Other)?;
    if bytes.len() < total {
        return Err(PackError::Room);
    }
    if ns.len() < count {
        return Err(PackError::Room);
    }
    lay(line, bytes, ns);
    Ok((count, total))
}

// What the words of a line measure: no group if one is no telegram, or one too many.
fn measured(line: &[u8]) -> Option<(usize, usize)>
    ensures { result ≡ measured (telegrams_in most (words_in line.now)) }
{
    let mut at = 0;
    let mut count = 0;
    let mut total = 0;
    while at <= line.len() {
        if count == MOST {
            return None;
        }
        let end = words::word_end(line, at);
        total += bytes_in(&line[at..end])?;
        count += 1;
        at = end + 1;
    }
    Some((count, total))
}

// How many bytes a word's telegram has, or that the word is none.
fn bytes_in(word: &[u8]) -> Option<usize>
    ensures { result ≡ size_of (telegram_in word.now) }
{
    let mut room = [0u8; 128];
    let (k, _) = telegram_word::telegram(word, &mut room).ok()?;
    Some(k)
}

// Puts the telegrams of a line whose words all are one.
fn lay(line: &[u8], bytes: &mut [u8], ns: &mut [usize])
    requires { (telegrams_in most (words_in line.now) ≡ some (those (telegrams_in most (words_in line.now)))) × (length (buffer_of (those (telegrams_in most (words_in line.now)))) ≤ length bytes.old) × (length (those (telegrams_in most (words_in line.now))) ≤ length ns.old) }
    ensures { (bytes.new ≡ bytes_over (those (telegrams_in most (words_in line.now))) bytes.old) × (ns.new ≡ counts_over (those (telegrams_in most (words_in line.now))) ns.old) }
{
    let mut at = 0;
    let mut used = 0;
    let mut i = 0;
    while at <= line.len() {
        let end = words::word_end(line, at);
        let lent = telegram_word::telegram(&line[at..end], &mut bytes[used..]);
        let Ok((k, n)) = lent else {
            return;
        };
        ns[i] = n as usize;
        used += k;
        i += 1;
        at = end + 1;
    }
}
