// The number of a group's refusal. A crate of its own, as `refusals` is, since six arms cost more than a small function should.
#![tactic(auto)]

ghost use Rattle.std.specs.Prelude.{◌≡◌};
ghost use Rattle.group.specs.Groups.{cause_number};

use group::Cause;

// The number of a cause (docs/RULES.md, "Groups"). A match, since `as` takes no enum whose cases hold something; `From` would be a second name for this
// function, which README gives.
pub fn number(cause: Cause) -> u64
    ensures { result ≡ cause_number cause }
{
    match cause {
        Cause::Room => 1,
        Cause::Single(kind) => refusals::number(kind),
        Cause::Identity => 21,
        Cause::Counters => 22,
        Cause::Copied => 23,
        Cause::Repeated => 10,
    }
}
