// Packets where they stand in a buffer, each known by its head, and which ways packets of one kind were sent already.
//
// No function asks anything of its caller: where no head stands, and for a Q_DIR above 2, the definitions in specs/ say what is found.
#![tactic(auto)]

ghost use Rattle.std.specs.Prelude.{◌≡◌, drop};
ghost use Rattle.sightings.specs.Sightings.{head_at, shared_by, repeats_in, joined_by, besides};

use bits::Cursor;
use clashes::exempt;
use packets::heads::OUTER_HEAD;

// The head that begins at the bit at and ends by the bit stop, of the bits that lie from the byte start on.
pub fn head(s: &[u8], start: usize, stop: usize, at: usize) -> Option<(u64, u64, usize)>
    ensures { result ≡ head_at (drop start s.now) stop at }
{
    let (a, _) = (Cursor { at }).take(s.get(start..)?, stop, OUTER_HEAD)?;
    // the next packet begins where L_PACKET says, and behind the head at least
    let reach = ((a % 8192) as usize).max(OUTER_HEAD);
    Some((a / 32768, a / 8192 % 4, reach))
}

// The ways that packets of one kind go, in one number: 0 none, 1 that of Q_DIR 0, 2 that of Q_DIR 1, 3 both. No enum: `repeats` and `joined`, which
// docs/PROMISES.md names, answer for each number of a byte, and an enum of four would ask more of who calls them.
const BOTH: u8 = 3;

// Whether a packet with this Q_DIR goes one of these ways.
fn shared(ways: u8, dir: u64) -> bool
    ensures { result ≡ shared_by ways dir }
{
    match dir {
        0 => ways != 0 && ways != 2,
        1 => ways != 0 && ways != 1,
        _ => ways != 0,
    }
}

// Whether a packet with this NID_PACKET and Q_DIR collides with those of its kind, which go these ways.
pub fn repeats(id: u64, dir: u64, ways: u8) -> bool
    ensures { result ≡ repeats_in id dir ways }
{
    !exempt(id) && shared(ways, dir)
}

// These ways with those of a packet with this Q_DIR.
pub fn joined(ways: u8, dir: u64) -> u8
    ensures { result ≡ joined_by ways dir }
{
    match dir {
        0 => beside(ways, 1),
        1 => beside(ways, 2),
        _ => BOTH,
    }
}

// These ways with a single one.
fn beside(ways: u8, way: u8) -> u8
    ensures { result ≡ besides ways way }
{
    if ways == 0 || ways == way { way } else { BOTH }
}
