// How an answer reads as text, put behind what waits: values, the bits of a telegram, and that a line is no question.
#![tactic(auto)]

ghost use Rattle.bits.specs.Bits.{bits_of};
ghost use Rattle.queue.specs.Waiting.{Joins};
ghost use Rattle.answer_text.specs.Texts.{no_question, spaced, listed, sent_text};

use format::Refusal;
use queue::Queue;

// Puts the answer to a line that is no question.
pub fn no_question(out: &mut [u8], q: Queue) -> Queue
    ensures { Joins no_question q out.old result out.new }
{
    queue::say(out, q, b"not a question\n")
}

// Puts the count and the values of a run.
pub fn listed(run: &[u64], out: &mut [u8], q: Queue) -> Queue
    ensures { Joins (listed run.now) q out.old result out.new }
{
    let a = queue::say(out, q, b"ok ");
    let b = queue_text::number(out, a, run.len() as u64);
    let c = numbers(run, out, b);
    queue::put(out, c, b'\n')
}

// Puts a space and a number for each value of a run.
fn numbers(run: &[u64], out: &mut [u8], q: Queue) -> Queue
    ensures { Joins (spaced run.now) q out.old result out.new }
{
    let mut r = q;
    for v in run {
        let s = queue::put(out, r, b' ');
        r = queue_text::number(out, s, *v);
    }
    r
}

// Puts the bits of a telegram that was written or normalised into the bytes t, as many as the answer says, or its refusal.
pub fn sent(t: &[u8], answer: Result<usize, Refusal>, out: &mut [u8], q: Queue) -> Queue
    ensures { Joins (sent_text (bits_of t.now) answer) q out.old result out.new }
{
    match answer {
        Ok(n) => {
            let a = queue::say(out, q, b"ok ");
            let b = queue_text::characters(out, a, t, n);
            queue::put(out, b, b'\n')
        }
        Err(r) => queue_text::refused(out, q, r),
    }
}
