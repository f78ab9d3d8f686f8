// Refusals in the numbers of docs/RULES.md.
#![tactic(auto)]

ghost use Rattle.std.specs.Prelude.{◌≡◌};
ghost use Rattle.format.specs.Refusals.{number_of};

use format::Kind;

// The number of a refusal (docs/RULES.md, "Refusal numbers"). `From` would be a second name for this function, which README gives.
pub fn number(kind: Kind) -> u64
    ensures { result ≡ number_of kind }
{
    kind as u64
}
