// What programs share that answer standard input line by line: when they read on, and, in specs/ and proofs/, that what they write is the
// answers to all lines, one behind the other.
#![tactic(auto)]

ghost use Rattle.std.specs.Prelude.{◌≡◌};
ghost use Rattle.line_by_line.specs.Running.{goes_on};

use blocks::Input;
use queue::Queue;

// Whether to read on. Once a write failed, no further answer can arrive whole.
pub fn goes_on(input: Input, q: Queue, turns: u64) -> bool
    ensures { result ≡ goes_on input q turns }
{
    !q.lost && !input.ended && 0 < turns
}
