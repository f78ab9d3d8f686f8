// What is answered to a line that writes a balise group: the packets of its message, or why it is refused.
#![tactic(auto)]

ghost use Rattle.format.specs.Rules.{paper};
ghost use Rattle.group.specs.Groups.{group, packets_needed};
ghost use Rattle.queue.specs.Waiting.{Joins};
ghost use Rattle.group_answers.specs.Lines.{message_text, answer_to};

use queue::Queue;

// Puts the answer to a line. A line that is no group is told so.
pub fn respond(line: &[u8], out: &mut [u8], q: Queue) -> Queue
    ensures { Joins (answer_to line.now) q out.old result out.new }
{
    let mut bytes = [0u8; 2048];
    let mut ns = [0usize; 16];
    let Ok((count, total)) = group_words::collect(line, &mut bytes, &mut ns) else {
        return answer_text::no_question(out, q);
    };
    tell(&bytes[..total], &ns[..count], out, q)
}

// Puts what a group answers, whose telegrams lie one behind the other in s.
fn tell(s: &[u8], ns: &[usize], out: &mut [u8], q: Queue) -> Queue
    ensures { Joins (message_text (group paper s.now ns.now packets_needed)) q out.old result out.new }
{
    let mut pigs = [0u8; 264];
    let mut numbers = [0u8; 264];
    match message::message(s, ns, &mut pigs, &mut numbers) {
        Ok(n) => group_text::packets(n, &pigs, &numbers, out, q),
        Err(f) => { group_text::fault(causes::number(f.cause), f.which, f.place, out, q) }
    }
}
