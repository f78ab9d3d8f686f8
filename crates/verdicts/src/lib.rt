// The tests of a group one after the other, up to that for packets that collide: the room, each telegram by itself, then whether they are one group,
// their counters, and what their M_DUP name.
#![tactic(auto)]

ghost use Rattle.std.specs.Prelude.{◌≡◌, true};
ghost use Rattle.format.specs.Rules.{paper};
ghost use Rattle.group.specs.Groups.{arrived, fault, grouped, parts};
ghost use Rattle.group.specs.Walks.{all_accepted, group_verdict, telegrams_of, verdict_of};

use arrivals::arrive;
use group::{Cause, Fault};
use seats::Telegrams;

mod copies;
mod counters;
mod identity;

// The packets for which there must be room.
const PACKETS: usize = 264;

// Telegrams that are each accepted by themselves.
#[derive(Clone, Copy)]
pub(crate) struct Accepted<'a> {
    pub(crate) telegrams: Telegrams<'a>,
    ghost arrives: { all_accepted (arrived paper 0 (parts telegrams.bytes.now telegrams.ns.now)) ≡ true },
}

// Telegrams that are each accepted, and by identity and positions one group.
#[derive(Clone, Copy)]
pub struct Lined<'a> {
    pub telegrams: Telegrams<'a>,
    pub ghost arrives: { all_accepted (arrived paper 0 (parts telegrams.bytes.now telegrams.ns.now)) ≡ true },
    pub ghost whole: { grouped (telegrams_of telegrams.bytes.now telegrams.ns.now) ≡ true },
}

// The first fault of a group that is lent room for so many packets, but for packets that collide.
pub fn judge(s: &[u8], ns: &[usize], room: usize) -> Result<(), Fault>
    ensures { result ≡ group_verdict s.now ns.now room }
{
    if room < PACKETS {
        return Err(of_all(Cause::Room));
    }
    if let Err((which, r)) = arrive(s, ns) {
        return Err(Fault {
            cause: Cause::Single(r.kind),
            which,
            place: r.place,
        });
    }
    verdict(Accepted {
        telegrams: Telegrams { bytes: s, ns },
    })
}

// The first fault of telegrams that are all accepted.
fn verdict(t: Accepted<'_>) -> Result<(), Fault>
    ensures { result ≡ verdict_of (telegrams_of t.entry.telegrams.bytes.now t.entry.telegrams.ns.now) }
{
    if !t.identified() {
        return Err(of_all(Cause::Identity));
    }
    let line = Lined {
        telegrams: t.telegrams,
    };
    if !line.counted() {
        return Err(of_all(Cause::Counters));
    }
    if let Some(which) = line.miscopied() {
        return Err(Fault {
            cause: Cause::Copied,
            which,
            place: 0,
        });
    }
    Ok(())
}

// The fault that has this cause and is of the group as a whole.
fn of_all(cause: Cause) -> Fault
    ensures { result ≡ fault cause 0 0 }
{
    Fault {
        cause,
        which: 0,
        place: 0,
    }
}
