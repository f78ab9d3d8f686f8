// What a radio number may be.
#![tactic(auto)]

ghost use Rattle.std.specs.Prelude.{◌≡◌, false};
ghost use Rattle.format.specs.Rules.{radio_from};

// The place that is no digit.
const F: u64 = 15;

// Sixteen places, the highest first: digits, then only F.
pub fn allowed(v: u64) -> bool
    ensures { result ≡ radio_from 16 false v }
{
    let mut full = false;
    for i in 0..16usize {
        let d = (v >> (4 * (15 - i))) % 16;
        if d == F {
            full = true;
        } else {
            if 9 < d {
                return false;
            }
            if full {
                return false;
            }
        }
    }
    true
}
