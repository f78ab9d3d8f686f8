// Reads telegrams from standard input, one a line as characters 0 and 1, and prints for each whether it is one.
//
// Of a line that may reach over any number of blocks, as many characters are kept as tell its answer.
#![tactic(auto)]

ghost use Rattle.std.specs.Prelude.{◌≤◌, length};
ghost use Rattle.answers.specs.Text.{response_to};
ghost use Rattle.line_by_line.specs.Running.{reply, Answered};
ghost use Rattle.queue.specs.Waiting.{Joins};

use blocks::Input;
use queue::Queue;

// One of three programs of this shape (lines, vectors, groups): what they share is in line_by_line, but for this loop and `finish`, since a function that
// all three call would be public and ask for `Answered`, and no public function here asks anything of who calls it.
//
// A proved loop has to end, and nothing says that the input does. So the loop counts its turns down, from a number that no run
// uses up.
fn main(rt: HostRuntime) {
    let mut block = io::large_buffer();
    let mut line = answers::line_buffer();
    let mut out = [0u8; 4096];
    let mut input = blocks::start();
    let mut q = Queue {
        waiting: 0,
        lost: false,
    };
    let mut turns = u64::MAX;
    while line_by_line::goes_on(input, q, turns) {
        input = blocks::next(rt.stdin(), &mut block, &mut line, input);
        q = answered(&line, input, &mut out, q);
        turns -= 1;
    }
    finish(rt, &out, input, q);
}

// Puts the answer to what is kept of the line in hand, if that is whole.
fn answered(line: &[u8], input: Input, out: &mut [u8], q: Queue) -> Queue
    requires { input.kept ≤ length line.now }
    ensures { Joins (reply response_to line.now input) q out.old result out.new }
{
    if input.whole {
        let n = input.kept;
        return answers::respond(&line[..n], out, q);
    }
    q
}

// Writes the last answers: with them all lines that were read are answered. What could not be read or written is said on standard error, since
// standard output lacks it.
fn finish(rt: HostRuntime, out: &[u8], input: Input, q: Queue)
    requires { Answered response_to input out.now q }
{
    let last = queue::flush(out, q);
    if input.failed {
        let _ = eprintln!(rt; "lines: reading failed");
    }
    if last.lost {
        let _ = eprintln!(rt; "lines: writing failed");
    }
}
