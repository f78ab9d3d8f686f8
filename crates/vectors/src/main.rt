// Answers questions to the library, one a line of standard input, so that another program can compare the answers with its own:
//
//     r BITS       reads the telegram of these characters 0 and 1: `ok`, the count of its values and the values
//     n BITS       its normal form: `ok` and the bits
//     w V V ..     the telegram with these decimal values: `ok` and its bits
//
// A refusal is `refused`, its number and its place. With no bits or no values the line is the letter alone; behind `r` and `n` the
// space may stay. The answer to any other line is `not a question`, and so it is to more than 1,000 bits or values,
// to a number past 64 bits, and to a line of more than 65,535 characters: a question has so many only with thousands of needless
// zeros.
#![tactic(auto)]

ghost use Rattle.std.specs.Prelude.{◌≡◌, ◌≤◌, length};
ghost use Rattle.line_by_line.specs.Running.{reply, Answered};
ghost use Rattle.queue.specs.Waiting.{Joins};
ghost use Rattle.vectors.specs.Lines.{answer_to};

use blocks::Input;
use queue::Queue;

// One of three programs of this shape (lines, vectors, groups): what they share is in line_by_line, but for this loop and `finish`, since a function that
// all three call would be public and ask for `Answered`, and no public function here asks anything of who calls it.
//
// A proved loop has to end, and nothing says that the input does. So the loop counts its turns down, from a number that no run
// uses up.
fn main(rt: HostRuntime) {
    let mut block = io::large_buffer();
    let mut line = io::large_buffer();
    let mut out = [0u8; 4096];
    let mut input = blocks::start();
    let mut q = Queue {
        waiting: 0,
        lost: false,
    };
    let mut turns = u64::MAX;
    while line_by_line::goes_on(input, q, turns) {
        input = blocks::next(rt.stdin(), &mut block, &mut line, input);
        q = answered(&line, input, &mut out, q);
        turns -= 1;
    }
    finish(rt, &out, input, q);
}

// Puts the answer to the line in hand, if it is whole. Of one that fills what is lent for it, more may be missing.
fn answered(line: &[u8], input: Input, out: &mut [u8], q: Queue) -> Queue
    requires { (65536 ≡ length line.now) × (input.kept ≤ length line.now) }
    ensures { Joins (reply answer_to line.now input) q out.old result out.new }
{
    if !input.whole {
        return q;
    }
    let n = input.kept;
    if n == line.len() {
        return answer_text::no_question(out, q);
    }
    questions::respond(&line[..n], out, q)
}

// Writes the last answers: with them all lines that were read are answered. What could not be read or written is said on standard error, since
// standard output lacks it.
fn finish(rt: HostRuntime, out: &[u8], input: Input, q: Queue)
    requires { Answered answer_to input out.now q }
{
    let last = queue::flush(out, q);
    if input.failed {
        let _ = eprintln!(rt; "vectors: reading failed");
    }
    if last.lost {
        let _ = eprintln!(rt; "vectors: writing failed");
    }
}
