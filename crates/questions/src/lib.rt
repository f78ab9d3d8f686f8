// Questions to the library, one a line, and what is answered to them: `r` and bits, `n` and bits, `w` and decimal values.
#![tactic(auto)]

ghost use Rattle.queue.specs.Waiting.{Joins};
ghost use Rattle.questions.specs.Questions.{reply_to, bits_behind, values_behind};

use queue::Queue;

// Puts the answer to a line. A line that is no question is told so.
pub fn respond(line: &[u8], out: &mut [u8], q: Queue) -> Queue
    ensures { Joins (reply_to line.now) q out.old result out.new }
{
    if line.len() == 0 {
        return answer_text::no_question(out, q);
    }
    let letter = line[0];
    let rest = &line[1..];
    if letter == b'r' {
        return of_bits(rest, false, out, q);
    }
    if letter == b'n' {
        return of_bits(rest, true, out, q);
    }
    if letter == b'w' {
        return of_values(rest, out, q);
    }
    answer_text::no_question(out, q)
}

// Behind `r` and `n` stand a space and the bits, or nothing.
fn of_bits(rest: &[u8], normal: bool, out: &mut [u8], q: Queue) -> Queue
    ensures { Joins (bits_behind normal rest.now) q out.old result out.new }
{
    if rest.len() == 0 {
        return replies::of_bits(rest, normal, out, q);
    }
    if rest[0] == b' ' {
        return replies::of_bits(&rest[1..], normal, out, q);
    }
    answer_text::no_question(out, q)
}

// Behind `w` stand the values.
fn of_values(rest: &[u8], out: &mut [u8], q: Queue) -> Queue
    ensures { Joins (values_behind rest.now) q out.old result out.new }
{
    let mut values = [0u64; 1000];
    match value_list::values_in(rest, &mut values) {
        Some(n) => replies::of_values(&values[..n], out, q),
        None => answer_text::no_question(out, q),
    }
}
