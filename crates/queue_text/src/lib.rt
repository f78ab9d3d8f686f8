// Numbers, bits and refusals as text, put behind what waits. Every function answers every queue and every array.
#![tactic(auto)]

ghost use Rattle.std.specs.Prelude.{take};
ghost use Rattle.bits.specs.Bits.{bits_of};
ghost use Rattle.pieces.specs.Numbers.{decimal};
ghost use Rattle.packing.specs.Packing.{characters};
ghost use Rattle.queue.specs.Waiting.{Joins};
ghost use Rattle.queue_text.specs.Texts.{refusal_text};

use format::Refusal;
use queue::Queue;

// Puts the decimal digits of a number.
pub fn number(out: &mut [u8], q: Queue, v: u64) -> Queue
    ensures { Joins (decimal v) q out.old result out.new }
{
    let mut d = [0u8; 20];
    let k = spell::append_decimal(&mut d, 0, v);
    queue::say(out, q, &d[..k])
}

// Puts the first n bits of s as characters 0 and 1, or all of them where s has fewer.
pub fn characters(out: &mut [u8], q: Queue, s: &[u8], n: usize) -> Queue
    ensures { Joins (characters (take n (bits_of s.now))) q out.old result out.new }
{
    let mut r = q;
    for at in 0..n {
        if s.len() <= at / 8 {
            return r;
        }
        r = queue::put(out, r, packing::character(s, at + 1, at));
    }
    r
}

// Puts a refusal: `refused`, its number and its place, and the end of the line.
pub fn refused(out: &mut [u8], q: Queue, refusal: Refusal) -> Queue
    ensures { Joins (refusal_text refusal) q out.old result out.new }
{
    let a = queue::say(out, q, b"refused ");
    let b = number(out, a, refusals::number(refusal.kind));
    let c = queue::put(out, b, b' ');
    let d = number(out, c, refusal.place as u64);
    queue::put(out, d, b'\n')
}
