// The packets of a group put into what is lent, once it is sure that none collides: those of each balise that counts, by how many they are.
ghost use Rattle.std.specs.Prelude.{◌≤◌, length};
ghost use Rattle.group.specs.Walks.{packets_of_all};
ghost use Rattle.message.specs.Passing.{Counts, Lays, Roomy, Stores};

use verdicts::Lined;

// Puts the packets of the balises that count into both runs, and gives their number.
pub(crate) fn store(t: &Lined<'_>, counts: &[usize], pigs: &mut [u8], numbers: &mut [u8]) -> usize
    requires { Counts t.now.telegrams.bytes.now t.now.telegrams.ns.now counts.now × ((264 ≤ length pigs.old) × (264 ≤ length numbers.old)) }
    ensures { Stores (packets_of_all t.now.telegrams.bytes.now t.now.telegrams.ns.now) pigs.old numbers.old result pigs.new numbers.new }
{
    let mut i = 0;
    for k in 0..t.telegrams.ns.len() {
        i = lay(counts[k], k as u8, i, pigs, numbers);
    }
    i
}

// Puts so many packets of the balise with this N_PIG into both runs from i on, and gives where the next one's go.
fn lay(count: usize, k: u8, i: usize, pigs: &mut [u8], numbers: &mut [u8]) -> usize
    requires { Roomy count i pigs.old numbers.old }
    ensures { Lays k i count pigs.old numbers.old result pigs.new numbers.new }
{
    for j in 0..count {
        pigs[i + j] = k;
        numbers[i + j] = j as u8;
    }
    i + count
}
