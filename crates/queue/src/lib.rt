// Text that waits in a lent array and is written to standard output when that is full. Every function answers every queue and every
// array.
#![tactic(auto)]

ghost use Rattle.std.specs.Prelude.{◌≡◌, true, [], ◌∷◌, ◌+◌, ◌≤◌, length};
ghost use Rattle.queue.specs.Waiting.{Joins, Flushed};

use word64::lower;

// The number of standard output, by which `Flushed` tells what the outside did: `io::write_all` takes it, and no handle.
const STDOUT: i32 = 1;

// How many characters wait at the front of the array, and whether some could not be written. The flag is no tag: some wait whether or not others were lost.
#[derive(Clone, Copy)]
pub struct Queue {
    pub waiting: usize,
    pub lost: bool,
}

// Puts a character behind those that wait. Where the array is full, they are all written first.
pub fn put(out: &mut [u8], q: Queue, c: u8) -> Queue
    ensures { Joins (c ∷ []) q out.old result out.new }
{
    let at = q.waiting;
    let lost = q.lost;
    if at < out.len() {
        out[at] = c;
        return Queue {
            waiting: at + 1,
            lost,
        };
    }
    if out.len() == 0 {
        return Queue {
            waiting: 0,
            lost: true,
        };
    }
    let r = flush(out, q);
    out[0] = c;
    Queue {
        waiting: 1,
        lost: r.lost,
    }
}

// Writes all that waits; where nothing does, nothing is written.
pub fn flush(out: &[u8], q: Queue) -> Queue
    ensures { Flushed q out.now result }
{
    let n = lower(q.waiting, out.len());
    if n == 0 {
        return Queue {
            waiting: 0,
            lost: q.lost,
        };
    }
    let wrote = io::write_all(STDOUT, &out[..n]);
    let lost = if wrote { q.lost } else { true };
    Queue { waiting: 0, lost }
}

// Puts a piece of text: at once where there is room behind what waits.
pub fn say(out: &mut [u8], q: Queue, piece: &[u8]) -> Queue
    ensures { Joins piece.now q out.old result out.new }
{
    let at = q.waiting;
    if roomy(out, at, piece.len()) {
        let end = pieces::append(out, at, piece);
        return Queue {
            waiting: end,
            lost: q.lost,
        };
    }
    singly(out, q, piece)
}

// Whether n more bytes of out are there from at on.
fn roomy(out: &[u8], at: usize, n: usize) -> bool
    ensures { result ≡ true → at + n ≤ length out.now }
{
    at <= out.len() && n <= out.len() - at
}

// Puts a piece character by character.
fn singly(out: &mut [u8], q: Queue, piece: &[u8]) -> Queue
    ensures { Joins piece.now q out.old result out.new }
{
    let mut r = q;
    for c in piece {
        r = put(out, r, *c);
    }
    r
}
