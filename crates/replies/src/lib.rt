// What reading, normalising and writing answer, as text.
#![tactic(auto)]

ghost use Rattle.queue.specs.Waiting.{Joins};
ghost use Rattle.replies.specs.Replies.{read_text, normal_text, write_text, bits_text};

use queue::Queue;

// Puts the answer to a line of characters 0 and 1: the values of the telegram that it writes, or its normal form, or what refuses it. A
// line with another character is no question, nor is one of more than 1,000.
pub fn of_bits(line: &[u8], normal: bool, out: &mut [u8], q: Queue) -> Queue
    ensures { Joins (bits_text normal line.now) q out.old result out.new }
{
    let mut s = [0u8; 125];
    let Ok(n) = packing::pack(line, &mut s) else {
        return answer_text::no_question(out, q);
    };
    let t = &s[..bits::bytes_for(n)];
    if normal {
        return normalise(t, n, out, q);
    }
    read(t, n, out, q)
}

// Puts the bits of the telegram with these values, or what refuses it.
pub fn of_values(values: &[u64], out: &mut [u8], q: Queue) -> Queue
    ensures { Joins (write_text values.now) q out.old result out.new }
{
    let mut bytes = [0u8; 104];
    let a = telegram::write(values, &mut bytes);
    answer_text::sent(&bytes, a, out, q)
}

// Puts the count and the values of a telegram, or its refusal.
fn read(s: &[u8], n: usize, out: &mut [u8], q: Queue) -> Queue
    ensures { Joins (read_text s.now n) q out.old result out.new }
{
    let mut run = [0u64; 830];
    match telegram::read(s, n, &mut run) {
        Ok(count) => answer_text::listed(&run[..count], out, q),
        Err(r) => queue_text::refused(out, q, r),
    }
}

fn normalise(s: &[u8], n: usize, out: &mut [u8], q: Queue) -> Queue
    ensures { Joins (normal_text s.now n) q out.old result out.new }
{
    let mut t = [0u8; 104];
    let a = telegram::normalise(s, n, &mut t);
    answer_text::sent(&t, a, out, q)
}
