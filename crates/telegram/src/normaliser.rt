// Normalising a telegram: what it says, told in metres wherever a packet can be.
//
// A refusal changes no output, so normalising checks first. A telegram of which the check saw that each packet is in metres or has no scale is copied; over a copy of
// any other each packet is told by its kind, once, from the end of the header on.
ghost use Rattle.format.specs.Rules.{paper};
ghost use Rattle.states.specs.Normaliser.{Normalise, Telling, Normalised};

use crate::reader::find;
use copying::copy;
use format::{Kind, Refusal};
use retelling::patch;

// Writes the normal form of a telegram into out, and answers its n. A refusal leaves out as it was. What the check refuses is handed on by `let .. else`, the
// form that docs/RULES.md names: `again`, `normals` and `alike` have it too.
pub fn normalise(s: &[u8], n: usize, out: &mut [u8]) -> Result<usize, Refusal>
    ensures { Normalise paper s.now n out.old result out.new }
{
    if out.len() < 104 {
        return Err(Refusal::at_once(Kind::Room));
    }
    let answer = find(s, n);
    let Ok(found) = answer else {
        return answer.map(|f| f.count);
    };
    if found.metric {
        copy(s, out);
    } else {
        tell(s, n, out);
    }
    Ok(n)
}

// Stores the normal form: most of its fields are sent as they are, so the telegram is copied and what changes is put over it.
fn tell(s: &[u8], n: usize, out: &mut [u8])
    requires { Telling s.now n out.old }
    ensures { Normalised s.now n out.old out.new }
{
    copy(s, out);
    patch(s, n, out);
}
