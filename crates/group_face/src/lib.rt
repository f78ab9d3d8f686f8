// The message of a balise group for C: byte buffers, a list of n, and one number as the answer.
#![tactic(auto)]

ghost use Rattle.std.specs.Prelude.{◌≡◌};
ghost use Rattle.format.specs.Rules.{paper};
ghost use Rattle.group_face.specs.GroupCodes.{GroupAnswer, group_code};

use causes::number;
use group::Fault;
use message::message;

// Which is cut to 49 bits, and the place to ten.
const WHICH_MOST: usize = 562949953421311;

const PLACE_MOST: usize = 1023;

// Lists the packets of a group's message: how many there are, or its refusal, which leaves both runs as they were.
pub fn sinkerpost_group(bytes: &[u8], ns: &[usize], pigs: &mut [u8], numbers: &mut [u8]) -> u64
    ensures { GroupAnswer paper bytes.now ns.now pigs.old numbers.old result pigs.new numbers.new }
{
    code(message(bytes, ns, pigs, numbers))
}

// How many packets; or a refusal's number, which and place in one number.
fn code(r: Result<usize, Fault>) -> u64
    ensures { result ≡ group_code r }
{
    match r {
        Ok(n) => n as u64,
        Err(f) => {
            let head = number(f.cause) * 562949953421312 + f.which.min(WHICH_MOST) as u64;
            head * 1024 + f.place.min(PLACE_MOST) as u64
        }
    }
}
