// Demand 3, by the promises of `telegram` alone: two telegrams say the same exactly when their normal forms have the same bits.
#![tactic(auto)]

ghost use Rattle.format.specs.Rules.{paper};
ghost use Rattle.normals.specs.Normals.{Ready};
ghost use Rattle.alike.specs.Pairs.{SaysSame};

use format::{Kind, Refusal};

// Which of two telegrams is refused. Too little room comes before all else; of two alike the first comes first.
#[derive(Clone, Copy)]
pub enum PairError {
    First(Refusal),
    Second(Refusal),
}

// Whether the telegram s of n bits and the telegram t of m bits say the same: writes their normal forms into x and y, and compares these. A refusal
// leaves both as they were: both rooms and both telegrams are tested before anything is stored.
pub fn says_same(
    s: &[u8],
    n: usize,
    t: &[u8],
    m: usize,
    x: &mut [u8],
    y: &mut [u8],
) -> Result<bool, PairError>
    ensures { SaysSame paper s.now n t.now m x.old y.old result x.new y.new }
{
    if x.len() < 104 {
        return Err(PairError::First(Refusal::at_once(Kind::Room)));
    }
    if y.len() < 104 {
        return Err(PairError::Second(Refusal::at_once(Kind::Room)));
    }
    if let Err(r) = telegram::check(s, n) {
        return Err(PairError::First(r));
    }
    if let Err(r) = telegram::check(t, m) {
        return Err(PairError::Second(r));
    }
    compared(s, n, t, m, x, y)
}

// The same of two telegrams that are accepted, with room for the normal forms of both.
fn compared(
    s: &[u8],
    n: usize,
    t: &[u8],
    m: usize,
    x: &mut [u8],
    y: &mut [u8],
) -> Result<bool, PairError>
    requires { Ready paper s.now n x.old × Ready paper t.now m y.old }
    ensures { SaysSame paper s.now n t.now m x.old y.old result x.new y.new }
{
    telegram::normalise(s, n, x).unwrap();
    telegram::normalise(t, m, y).unwrap();
    let k = bits::bytes_for(n);
    Ok(n == m && x[..k] == y[..k])
}
