// Demand 3, by the promise of `telegram::normalise` alone: normalising again changes nothing. That two telegrams say the same exactly when their normal
// forms have the same bits is in `alike`.
#![tactic(auto)]

ghost use Rattle.format.specs.Rules.{paper};
ghost use Rattle.normals.specs.Normals.{Renormalised};

use format::{Kind, Refusal};

// Writes the normal form of the telegram s of n bits into x, and the normal form of that into y: n, and the same again. A refusal leaves both as
// they were: the room in y is tested before anything is stored, and a normal form is never refused.
pub fn renormalised(s: &[u8], n: usize, x: &mut [u8], y: &mut [u8]) -> Result<usize, Refusal>
    ensures { Renormalised paper s.now n x.old y.old result x.new y.new }
{
    if y.len() < 104 {
        return Err(Refusal::at_once(Kind::Room));
    }
    let a = telegram::normalise(s, n, x);
    let Ok(m) = a else {
        return a;
    };
    telegram::normalise(&x[..bits::bytes_for(m)], m, y)
}
