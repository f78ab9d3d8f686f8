// What is answered to a line that writes a telegram as characters 0 and 1: whether it is one.
#![tactic(auto)]

ghost use Rattle.std.specs.Prelude.{◌≡◌, length};
ghost use Rattle.answers.specs.Lines.{answer_to, no_telegram};
ghost use Rattle.answers.specs.Text.{accepted, text_of, response_to, TellsLine};
ghost use Rattle.queue.specs.Waiting.{Joins};

use format::{Kind, Refusal};
use queue::Queue;

// No telegram has more than 830 bits. A line of 831 characters or more is refused for that, whatever they are.
const LINE: usize = 831;

// A buffer for as much of a line as tells its answer.
pub fn line_buffer() -> [u8; LINE]
    ensures { TellsLine (length result) }
{
    [0; LINE]
}

// Puts the answer to a whole line.
pub fn respond(line: &[u8], out: &mut [u8], q: Queue) -> Queue
    ensures { Joins (response_to line.now) q out.old result out.new }
{
    tell(out, q, line.len(), answer(line))
}

// What the check answers of the telegram that a line writes. A line with another character is refused as one of a wrong length is.
fn answer(line: &[u8]) -> Result<usize, Refusal>
    ensures { result ≡ answer_to line.now }
{
    let mut s = [0u8; 104];
    let Ok(n) = packing::pack(line, &mut s) else {
        return no_telegram();
    };
    telegram::check(&s[..bits::bytes_for(n)], n)
}

fn no_telegram() -> Result<usize, Refusal>
    ensures { result ≡ no_telegram }
{
    Err(Refusal::at_once(Kind::Size))
}

// Puts the line that tells an answer: `ok`, n and the count of values, or `refused`, number and place.
fn tell(out: &mut [u8], q: Queue, n: usize, answer: Result<usize, Refusal>) -> Queue
    ensures { Joins (text_of n answer) q out.old result out.new }
{
    match answer {
        Ok(count) => accepted(out, q, n as u64, count as u64),
        Err(r) => queue_text::refused(out, q, r),
    }
}

fn accepted(out: &mut [u8], q: Queue, n: u64, count: u64) -> Queue
    ensures { Joins (accepted n count) q out.old result out.new }
{
    let a = queue::say(out, q, b"ok ");
    let b = queue_text::number(out, a, n);
    let c = queue::put(out, b, b' ');
    let d = queue_text::number(out, c, count);
    queue::put(out, d, b'\n')
}
