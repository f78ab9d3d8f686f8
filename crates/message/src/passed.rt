// Whether packets of a group collide: its balises are gone through in the order of N_PIG, and which ways packets of each kind go is kept in a table.
ghost use Rattle.std.specs.Prelude.{◌≡◌, ◌≤◌, length, drop, replicate};
ghost use Rattle.sightings.specs.Sightings.{glimpses};
ghost use Rattle.message.specs.Passing.{Collided, Passes, counted};

use seats::Balise;
use sightings::{head, joined, repeats};
use verdicts::Lined;

// The first packet that collides with one before it. The table has no way yet. Where none does, counts has how many packets of each balise count.
pub(crate) fn collided(
    t: &Lined<'_>,
    seen: &mut [u8],
    counts: &mut [usize],
) -> Result<(), (usize, usize)>
    requires { (seen.old ≡ replicate 256 0) × (length counts.old ≡ 8) }
    ensures { Collided t.now.telegrams.bytes.now t.now.telegrams.ns.now result counts.new }
{
    let mut before = 0;
    for k in 0..t.telegrams.ns.len() {
        let b = t.telegrams.balise_at(k as u64, before);
        counts[k] = pass(t.telegrams.bytes, b, k, seen)?;
        before = b.dup;
    }
    Ok(())
}

// The first of one balise's packets that collides with those that are in the table, or with one before it; each is put there. A balise that does not
// count has none.
fn pass(s: &[u8], b: Balise, k: usize, seen: &mut [u8]) -> Result<usize, (usize, usize)>
    requires { (length seen.old ≡ 256) × ((8 ≤ b.seat.n) × (b.seat.n ≤ 830)) }
    ensures { Passes k (counted b.counts (glimpses (drop b.seat.start s.now) b.seat.n)) seen.old result seen.new }
{
    if !b.counts {
        return Ok(0);
    }
    let stop = b.seat.n - 8;
    let mut at = 50;
    let mut count = 0;
    while let Some((id, dir, far)) = head(s, b.seat.start, stop, at) {
        let ways = seen[id as usize];
        if repeats(id, dir, ways) {
            return Err((k, at + 8));
        }
        seen[id as usize] = joined(ways, dir);
        at += far;
        count += 1;
    }
    Ok(count)
}
