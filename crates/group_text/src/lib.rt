// How the answer to a group reads as text, put behind what waits: the packets of its message, or why it is refused. Every function answers every input.
#![tactic(auto)]

ghost use Rattle.queue.specs.Waiting.{Joins};
ghost use Rattle.group_text.specs.Texts.{packet_text, packet_texts, packets_text, fault_text};

use queue::Queue;
use word64::lower;

// Puts the packets of a message: `ok`, how many they are, and of each the N_PIG and the number in its telegram, which stand in two runs. Behind
// the end of either there is none.
pub fn packets(count: usize, pigs: &[u8], numbers: &[u8], out: &mut [u8], q: Queue) -> Queue
    ensures { Joins (packets_text count pigs.now numbers.now) q out.old result out.new }
{
    let a = queue::say(out, q, b"ok ");
    let b = queue_text::number(out, a, count as u64);
    let c = each(count, pigs, numbers, out, b);
    queue::put(out, c, b'\n')
}

fn each(count: usize, pigs: &[u8], numbers: &[u8], out: &mut [u8], q: Queue) -> Queue
    ensures { Joins (packet_texts count pigs.now numbers.now) q out.old result out.new }
{
    let n = lower(count, lower(pigs.len(), numbers.len()));
    let mut r = q;
    // By index: over zip the invariant speaks of pairs of references so far, and is no plainer.
    for i in 0..n {
        r = packet(pigs[i], numbers[i], out, r);
    }
    r
}

fn packet(pig: u8, number: u8, out: &mut [u8], q: Queue) -> Queue
    ensures { Joins (packet_text pig number) q out.old result out.new }
{
    let a = queue::put(out, q, b' ');
    let b = queue_text::number(out, a, pig as u64);
    let c = queue::put(out, b, b'.');
    queue_text::number(out, c, number as u64)
}

// Puts a refusal: `refused`, its number, which telegram or balise, and the place.
pub fn fault(number: u64, which: usize, place: usize, out: &mut [u8], q: Queue) -> Queue
    ensures { Joins (fault_text number which place) q out.old result out.new }
{
    let a = queue::say(out, q, b"refused ");
    let b = queue_text::number(out, a, number);
    let c = queue::put(out, b, b' ');
    let d = queue_text::number(out, c, which as u64);
    let e = queue::put(out, d, b' ');
    let f = queue_text::number(out, e, place as u64);
    queue::put(out, f, b'\n')
}
