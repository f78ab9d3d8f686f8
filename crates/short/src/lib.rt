// The short ways: which fields need not be read, and which values need nothing of where a telegram stands. Both go by the rest of a row, as
// `table` packs it. Beside them how long a telegram and a value may be (`size`), which needs no table.
#![tactic(auto)]

ghost use Rattle.std.specs.Prelude.{◌≡◌};
ghost use Rattle.states.specs.Machine.{unread, slight};

mod size;

pub use size::{fitting, sized};
use states::codes::SEND;

// Whether a field steers nothing, may hold anything and nothing is kept of it, so that it may be gone past. a: what stands in its row. r: the rest of
// its row.
pub fn unread(a: u32, r: u32) -> bool
    ensures { result ≡ unread a r }
{
    if a != SEND {
        return false;
    }
    r < 3
}

// Whether nothing is kept of a value and it keeps its rule, which is none, or a range that begins at 0 or 1: any other is left to the machine. r: the
// rest of the row of its field.
pub fn slight(r: u32, v: u64) -> bool
    ensures { result ≡ slight r v }
{
    if r < 10 {
        return true;
    }
    let high = (r % 16) as u64;
    if high < v {
        return false;
    }
    if r < 48 {
        return true;
    }
    if 51 < r {
        return false;
    }
    0 < v
}
