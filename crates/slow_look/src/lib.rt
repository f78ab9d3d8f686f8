// Whether a packet collides with an earlier one, found by a look back over bits that asks nothing of them. The swift look of `lookback` leaves to it what it
// is not sure of.
#![tactic(auto)]

ghost use Rattle.std.specs.Prelude.{◌≡◌, ◌-◌};
ghost use Rattle.format.specs.Rules.{clash, collides_among};
ghost use Rattle.states.specs.Lookback.{packets_before};

use bits::Cursor;
use clashes::{exempt, meets};
use packets::heads::OUTER_HEAD;

// The bits of a header.
pub const HEADER: usize = 50;

// Whether a packet with this NID_PACKET and Q_DIR collides with one of those that stand behind the header and before the bit stop: from packet to packet
// by their L_PACKET, the fields of each head taken apart.
pub fn collides_slowly(s: &[u8], stop: usize, id: u64, dir: u64) -> bool
    ensures { result ≡ collides_among clash id dir (packets_before s.now stop) }
{
    if exempt(id) {
        return false;
    }
    let mut c = Cursor { at: HEADER };
    loop {
        let Some((a, body)) = c.take(s, stop, OUTER_HEAD) else {
            return false;
        };
        if meets(a / 32768, a / 8192 % 4, id, dir) {
            return true;
        }
        let Some(next) = body.skip(stop, behind_head(a % 8192)) else {
            return false;
        };
        c = next;
    }
}

// The bits of a packet behind its head, none where its L_PACKET says less than that.
fn behind_head(long: u64) -> usize
    ensures { result ≡ long - 23 }
{
    let bits = long as usize;
    if bits < OUTER_HEAD {
        return 0;
    }
    bits - OUTER_HEAD
}
