// Values that a text writes, each as a space and decimal digits.
#![tactic(auto)]

ghost use Rattle.std.specs.Prelude.{◌≡◌, drop};
ghost use Rattle.pieces.specs.Numbers.{read_at};
ghost use Rattle.value_list.specs.Values.{value_in, values_in, count_of, Taken, Stored};

// Takes the values of a text into the front of what is lent. They are counted first, so that a refusal leaves all as it was.
pub fn values_in(text: &[u8], values: &mut [u64]) -> Option<usize>
    ensures { Taken text.now values.old result values.new }
{
    let n = count(text, values.len())?;
    store(text, values);
    Some(n)
}

// How many values a text has that has nothing else, if there is room for so many.
fn count(text: &[u8], room: usize) -> Option<usize>
    ensures { result ≡ count_of (values_in room text.now) }
{
    let mut n = 0;
    let mut at = 0;
    while at < text.len() {
        if n == room {
            return None;
        }
        let (_, end) = value_at(text, at)?;
        n += 1;
        at = end;
    }
    Some(n)
}

// Stores the values of a text that was counted.
fn store(text: &[u8], values: &mut [u64])
    ensures { Stored text.now values.old values.new }
{
    let mut at = 0;
    for value in values.iter_mut() {
        let Some((v, end)) = value_at(text, at) else {
            return;
        };
        *value = v;
        at = end;
    }
}

// The value that begins at a position: a space, and digits behind it.
fn value_at(text: &[u8], at: usize) -> Option<(u64, usize)>
    ensures { result ≡ read_at at (value_in (drop at text.now)) }
{
    if text.len() <= at {
        return None;
    }
    if text[at] != b' ' {
        return None;
    }
    let (v, end) = parse::digits_at(text, at + 1)?;
    if end == at + 1 {
        return None;
    }
    Some((v, end))
}
