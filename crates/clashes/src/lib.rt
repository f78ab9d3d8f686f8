// When two packets of a telegram collide: by their kind and their directions.
#![tactic(auto)]

ghost use Rattle.std.specs.Prelude.{◌≡◌, ◌&&◌, eqb};
ghost use Rattle.format.specs.Rules.{clash};

use packets::National;

// Whether packets of this kind may stand again: ETCS-44 alone, which carries a CTCS packet.
pub fn exempt(id: u64) -> bool
    ensures { result ≡ eqb id 44 }
{
    id == National::ID
}

// Whether an earlier packet has this NID_PACKET and a direction that collides with this Q_DIR.
pub fn meets(name: u64, way: u64, id: u64, dir: u64) -> bool
    ensures { result ≡ (eqb id name && clash dir way) }
{
    id == name && directions_collide(dir, way)
}

// Whether two directions collide: one of them is both ways, or they are the same. They are values of Q_DIR and no enum: `clash` speaks of any two numbers.
#[tactic(auto, unfolding(format::specs::Rules::clash))]
fn directions_collide(d: u64, e: u64) -> bool
    ensures { result ≡ clash d e }
{
    d == 2 || e == 2 || d == e
}
