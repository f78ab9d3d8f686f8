// The counters of a group, by N_PIG.
use crate::Lined;
use headers::{counters_match, latest};

// The M_MCOUNT that matches none.
const NEVER: u64 = 254;

impl<'a> Lined<'a> {
    ghost use Rattle.std.specs.Prelude.{◌≡◌};
    ghost use Rattle.group.specs.Groups.{counted};
    ghost use Rattle.group.specs.Walks.{line_of};

    // Whether no counter is 254, and all other than 255 are equal.
    pub(crate) fn counted(&self) -> bool
        ensures { result ≡ counted (line_of self.now.telegrams.bytes.now self.now.telegrams.ns.now) }
    {
        let mut seen = 255;
        for k in 0..self.telegrams.ns.len() {
            let c = self.telegrams.counter(k as u64);
            if c == NEVER {
                return false;
            }
            if !counters_match(seen, c) {
                return false;
            }
            seen = latest(seen, c);
        }
        true
    }
}
