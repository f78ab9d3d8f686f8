// Copies: balises that name their neighbour by M_DUP.
use crate::Lined;

impl<'a> Lined<'a> {
    ghost use Rattle.std.specs.Prelude.{◌≡◌, ◌<◌, length};
    ghost use Rattle.std.proofs.Math.Option.{none};
    ghost use Rattle.group.specs.Groups.{copy_of, miscopied, names_right};
    ghost use Rattle.group.specs.Walks.{following, found_of, line_of, preceding, seated, telegrams_of};

    // The lowest N_PIG whose M_DUP names no balise, or one with other packets.
    pub(crate) fn miscopied(&self) -> Option<usize>
        ensures { result ≡ found_of (miscopied 0 none (line_of self.now.telegrams.bytes.now self.now.telegrams.ns.now)) }
    {
        for k in 0..self.telegrams.ns.len() {
            if !self.names_right(k) {
                return Some(k);
            }
        }
        None
    }

    // Whether what the M_DUP of the balise with this N_PIG names is a balise with the same packets.
    fn names_right(&self, k: usize) -> bool
        requires { k < length self.now.telegrams.ns.now }
        ensures { result ≡ names_right (preceding k (telegrams_of self.now.telegrams.bytes.now self.now.telegrams.ns.now)) (seated k (telegrams_of self.now.telegrams.bytes.now self.now.telegrams.ns.now)) (following k (length self.now.telegrams.ns.now) (telegrams_of self.now.telegrams.bytes.now self.now.telegrams.ns.now)) }
    {
        match self.telegrams.dup(k as u64) {
            1 => self.copies_next(k),
            2 => self.copies_last(k),
            _ => true,
        }
    }

    fn copies_next(&self, k: usize) -> bool
        requires { k < length self.now.telegrams.ns.now }
        ensures { result ≡ copy_of (following k (length self.now.telegrams.ns.now) (telegrams_of self.now.telegrams.bytes.now self.now.telegrams.ns.now)) (seated k (telegrams_of self.now.telegrams.bytes.now self.now.telegrams.ns.now)) }
    {
        k + 1 != self.telegrams.ns.len() && self.telegrams.same_packets((k + 1) as u64, k as u64)
    }

    fn copies_last(&self, k: usize) -> bool
        requires { k < length self.now.telegrams.ns.now }
        ensures { result ≡ copy_of (preceding k (telegrams_of self.now.telegrams.bytes.now self.now.telegrams.ns.now)) (seated k (telegrams_of self.now.telegrams.bytes.now self.now.telegrams.ns.now)) }
    {
        k != 0 && self.telegrams.same_packets((k - 1) as u64, k as u64)
    }
}
