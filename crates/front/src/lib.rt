// The header, taken as one field: its first 25 bits hold all of it that a rule reads, and 25 more are gone past unread.
#![tactic(auto)]

ghost use Rattle.std.specs.Prelude.{◌≡◌};
ghost use Rattle.states.specs.Heads.{front_of};

use bits::Cursor;
use states::State;

// The state behind the header of the first n bits of s, if it keeps every rule. Its first three fields are 1, 16 and 0, which is 288 in nine bits.
pub fn header(s: &[u8], n: usize) -> Option<State>
    ensures { result ≡ front_of s.now n }
{
    let c = Cursor { at: 0 };
    let (a, read) = c.take(s, n, 25)?;
    let end = read.skip(n, 25)?;
    let pig = a / 8192 % 8;
    if a / 65536 != 288 {
        return None;
    }
    if a / 1024 % 8 < pig {
        return None;
    }
    if a / 256 % 4 == 3 {
        return None;
    }
    Some(State::fresh(end.at, pig))
}
