// Whether telegrams are one group: their identity and their positions.
use crate::Accepted;
use headers::{belongs, identity};
use seats::{Telegrams, behind};

// The balises of a group at most.
const MOST: usize = 8;

impl<'a> Accepted<'a> {
    ghost use Rattle.std.specs.Prelude.{◌≡◌, ◌<◌, length};
    ghost use Rattle.group.specs.Groups.{grouped, once};
    ghost use Rattle.group.specs.Walks.{alike, telegrams_of};

    // Whether they are 1 to 8, agree, and have the N_PIG from 0 to N_TOTAL, each once.
    pub(crate) fn identified(&self) -> bool
        ensures { result ≡ grouped (telegrams_of self.now.telegrams.bytes.now self.now.telegrams.ns.now) }
    {
        match self.telegrams.ns.len() {
            1..=MOST => self.alike() && self.each_once(),
            _ => false,
        }
    }

    // Whether they have the first one's identity, and each N_TOTAL says how many they are.
    fn alike(&self) -> bool
        requires { 0 < length self.now.telegrams.ns.now }
        ensures { result ≡ alike (telegrams_of self.now.telegrams.bytes.now self.now.telegrams.ns.now) }
    {
        let Telegrams { bytes, ns } = self.telegrams;
        let whose = identity(bytes, 0);
        let total = (ns.len() - 1) as u64;
        let mut start = 0;
        for &n in ns {
            if !belongs(bytes, start, whose, total) {
                return false;
            }
            start = behind(bytes.len(), start, n);
        }
        true
    }

    // Whether each N_PIG below their number stands once, the highest first: where one is missing it is mostly that.
    fn each_once(&self) -> bool
        ensures { result ≡ once (length self.now.telegrams.ns.now) (telegrams_of self.now.telegrams.bytes.now self.now.telegrams.ns.now) }
    {
        for k in (0..self.telegrams.ns.len()).rev() {
            if self.telegrams.tally(k as u64) != 1 {
                return false;
            }
        }
        true
    }
}
