// Reads balise groups from standard input, one a line, and prints what the telegrams of each say together:
//
//     TELEGRAM ..     0 to 16 telegrams in order of arrival, one space between two: each is 1 to 1,024 characters 0 and 1, or its bytes in
//                     hexadecimal, a colon and its number of bits
//
// The answer is `ok`, the number of packets, and each packet as the N_PIG of its balise, a dot and its number in its telegram; or `refused`, the number
// of the refusal, which telegram or balise it is, and the place. The answer to any other line is `not a question`.
#![tactic(auto)]

ghost use Rattle.std.specs.Prelude.{◌≤◌, length};
ghost use Rattle.group_answers.specs.Lines.{answer_to};
ghost use Rattle.line_by_line.specs.Running.{reply, Answered};
ghost use Rattle.queue.specs.Waiting.{Joins};

use blocks::Input;
use queue::Queue;

// One of three programs of this shape (lines, vectors, groups): what they share is in line_by_line, but for this loop and `finish`, since a function that
// all three call would be public and ask for `Answered`, and no public function here asks anything of who calls it.
//
// A proved loop has to end, and nothing says that the input does. So the loop counts its turns down, from a number that no run
// uses up.
fn main(rt: HostRuntime) {
    let mut block = io::large_buffer();
    let mut line = io::large_buffer();
    let mut out = [0u8; 4096];
    let mut input = blocks::start();
    let mut q = Queue {
        waiting: 0,
        lost: false,
    };
    let mut turns = u64::MAX;
    while line_by_line::goes_on(input, q, turns) {
        input = blocks::next(rt.stdin(), &mut block, &mut line, input);
        q = answered(&line, input, &mut out, q);
        turns -= 1;
    }
    finish(rt, &out, input, q);
}

// Puts the answer to what is kept of the line in hand, if that is whole.
fn answered(line: &[u8], input: Input, out: &mut [u8], q: Queue) -> Queue
    requires { input.kept ≤ length line.now }
    ensures { Joins (reply answer_to line.now input) q out.old result out.new }
{
    if input.whole {
        let n = input.kept;
        return group_answers::respond(&line[..n], out, q);
    }
    q
}

// Writes the last answers: with them all lines that were read are answered. What could not be read or written is said on standard error, since
// standard output lacks it.
fn finish(rt: HostRuntime, out: &[u8], input: Input, q: Queue)
    requires { Answered answer_to input out.now q }
{
    let last = queue::flush(out, q);
    if input.failed {
        let _ = eprintln!(rt; "groups: reading failed");
    }
    if last.lost {
        let _ = eprintln!(rt; "groups: writing failed");
    }
}
