// A balise group as one message: the packets that its telegrams send together, or why there is no message.
#![tactic(auto)]

ghost use Rattle.format.specs.Rules.{paper};
ghost use Rattle.group.specs.Groups.{Replied};

use crate::passed::collided;
use crate::storing::store;
use group::{Cause, Fault};
use seats::Telegrams;
use verdicts::{Lined, judge};

mod passed;
mod storing;

// Lists the packets of the group's message: the N_PIG of each in pigs, and its number in its telegram in numbers. The telegrams lie one behind
// the other in s, and ns has how many bits each has. A refusal leaves both runs as they were. They are two runs, and s and ns two slices, since C
// lends them so (`sinkerpost_group`).
pub fn message(s: &[u8], ns: &[usize], pigs: &mut [u8], numbers: &mut [u8]) -> Result<usize, Fault>
    ensures { Replied paper s.now ns.now pigs.old numbers.old result pigs.new numbers.new }
{
    let room = pigs.len().min(numbers.len());
    judge(s, ns, room)?;
    let line = Lined {
        telegrams: Telegrams { bytes: s, ns },
    };
    let mut seen = [0u8; 256];
    let mut counts = [0usize; 8];
    if let Err((which, place)) = collided(&line, &mut seen, &mut counts) {
        return Err(Fault {
            cause: Cause::Repeated,
            which,
            place,
        });
    }
    Ok(store(&line, &counts, pigs, numbers))
}
