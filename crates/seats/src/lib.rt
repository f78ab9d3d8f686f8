// Where the telegrams of a group stand in their buffer: each is found by its N_PIG, by adding up the bytes of those that lie before it.
//
// No function asks anything of its caller: a list of any length, with any n, over any bytes has its answer.
#![tactic(auto)]

ghost use Rattle.std.specs.Prelude.{◌≡◌, ◌+◌, ◌-◌, min, drop};
ghost use Rattle.bits.specs.Bits.{bytes_for};
ghost use Rattle.headers.specs.Headers.{number_at};
ghost use Rattle.seats.specs.Seats.{pig_of, tallied, seat_of, dup_of, counter_of, same_packets, linked_by, balise_of};

use bits::bytes_for;
use headers::{front, same_body};

// What one stands for that is the lowest bit of a field, in the first 32 bits of a telegram: N_PIG ends at bit 12, M_DUP at bit 17 and M_MCOUNT at bit 25.
// Each field is read by one expression with two numbers of its own: a function of the three would be given both, and be no shorter.
const BELOW_N_PIG: u64 = 1048576;

const BELOW_M_DUP: u64 = 32768;

const BELOW_M_MCOUNT: u64 = 128;

// Where a telegram stands: its first byte, and how many bits it has.
#[derive(Clone, Copy, Debug, PartialEq, Eq)]
pub struct Seat {
    pub start: usize,
    pub n: usize,
}

// A balise as it is met in the order of N_PIG: where its telegram stands, its M_DUP, and whether it counts, being no copy of the one before it. It has
// a seat and a M_DUP whether it counts or not (`balise_of`), so that the flag is no Option of them.
#[derive(Clone, Copy, Debug, PartialEq, Eq)]
pub struct Balise {
    pub seat: Seat,
    pub dup: u64,
    pub counts: bool,
}

// Telegrams one behind the other in a buffer, and how many bits each has.
#[derive(Clone, Copy, Debug, PartialEq, Eq)]
pub struct Telegrams<'a> {
    pub bytes: &'a [u8],
    pub ns: &'a [usize],
}

impl<'a> Telegrams<'a> {
    // How many have this N_PIG.
    pub fn tally(&self, k: u64) -> usize
        ensures { result ≡ tallied k self.now.bytes.now self.now.ns.now }
    {
        let mut start = 0;
        let mut count = 0;
        for &n in self.ns {
            count += usize::from(pig(self.bytes, start) == k);
            start = behind(self.bytes.len(), start, n);
        }
        count
    }

    // Where the first with this N_PIG stands; no bits at byte 0 if there is none, since that is what each definition over a seat goes by.
    fn seek(&self, k: u64) -> Seat
        ensures { result ≡ seat_of self.now.bytes.now self.now.ns.now k }
    {
        let mut start = 0;
        for &n in self.ns {
            let seat = Seat { start, n };
            if pig(self.bytes, seat.start) == k {
                return seat;
            }
            start = behind(self.bytes.len(), seat.start, seat.n);
        }
        Seat { start: 0, n: 0 }
    }

    // The M_DUP of the first with this N_PIG.
    pub fn dup(&self, k: u64) -> u64
        ensures { result ≡ dup_of self.now.bytes.now (seat_of self.now.bytes.now self.now.ns.now k) }
    {
        named(self.bytes, self.seek(k).start)
    }

    // The M_MCOUNT of the first with this N_PIG.
    pub fn counter(&self, k: u64) -> u64
        ensures { result ≡ counter_of self.now.bytes.now (seat_of self.now.bytes.now self.now.ns.now k) }
    {
        front(self.bytes, self.seek(k).start) / BELOW_M_MCOUNT % 256
    }

    // Whether the first with these two N_PIG are the same behind their headers.
    pub fn same_packets(&self, j: u64, k: u64) -> bool
        ensures { result ≡ same_packets self.now.bytes.now (seat_of self.now.bytes.now self.now.ns.now j) (seat_of self.now.bytes.now self.now.ns.now k) }
    {
        let a = self.seek(j);
        let b = self.seek(k);
        same_body(self.bytes, a.start, a.n, b.start, b.n)
    }

    // The balise with this N_PIG, where before is the M_DUP of the one before it.
    pub fn balise_at(&self, k: u64, before: u64) -> Balise
        ensures { result ≡ balise_of self.now.bytes.now (seat_of self.now.bytes.now self.now.ns.now k) k before }
    {
        let seat = self.seek(k);
        let dup = named(self.bytes, seat.start);
        let counts = !linked(k, before, dup);
        Balise { seat, dup, counts }
    }
}

// Where the n bits from the byte start on end, of so many bytes: where they do, if they are not all there.
pub fn behind(all: usize, start: usize, n: usize) -> usize
    ensures { result ≡ start + min (bytes_for n) (all - start) }
{
    start + bytes_for(n).min(all.saturating_sub(start))
}

// The N_PIG of the telegram at the byte start.
fn pig(s: &[u8], start: usize) -> u64
    ensures { result ≡ pig_of (drop start s.now) }
{
    front(s, start) / BELOW_N_PIG % 8
}

// The M_DUP of the telegram at the byte start.
fn named(s: &[u8], start: usize) -> u64
    ensures { result ≡ number_at (drop start s.now) 58 15 2 }
{
    front(s, start) / BELOW_M_DUP % 4
}

// Whether a balise is linked to the one before it: one of the two names the other.
fn linked(k: u64, before: u64, dup: u64) -> bool
    ensures { result ≡ linked_by k before dup }
{
    k != 0 && (before == 1 || dup == 2)
}
