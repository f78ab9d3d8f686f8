// Refusals with their places.
ghost use Rattle.std.specs.Prelude.{◌≡◌, List, ◌≤◌};
ghost use Rattle.format.specs.Rules.{Earlier, place_from};
ghost use Rattle.states.specs.Machine.{context_of};

use format::{Kind, Refusal};
use noting::place;
use states::State;

// The refusal that is found at the field that is due, which ends at the bit end; 5 does not look at where it ends.
pub(crate) fn refused(kind: Kind, s: State, end: usize) -> Refusal
    requires { (s.start ≤ 65536) × (s.userstart ≤ 65536) }
    ensures { (l : List Earlier) → result ≡ record { kind = kind; place = place_from kind s.at end (context_of l s) } }
{
    let place = place(kind, s, end);
    Refusal { kind, place }
}
