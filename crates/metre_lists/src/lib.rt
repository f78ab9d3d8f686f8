// Distances of a packet in metres, one by one and in lists of groups: whether they are whole metres that fit, and what is put then.
//
// Numbers are read in the bytes s, which hold the telegram as it was sent, and put into out at the same places: crate `told` has what is put. A list
// is gone over twice, by one loop for each way in which a group is laid out: it tests each distance, or, with puts, it puts each.
#![tactic(auto)]

ghost use Rattle.std.specs.Prelude.{true, false, cond, ◌&&◌, ◌≡◌, leb, length, List, ℕ, Bool, Some, None, IfSome, ◌+◌, ◌-◌, ◌≤◌, ◌<◌};
ghost use Rattle.bits.specs.Ahead as sight;
ghost use Rattle.bits.specs.Put.{put_at};
ghost use Rattle.distance.specs.Distance.{number_of, whole_metres};
ghost use Rattle.distance.specs.Steps.{decimetres, steps};
ghost use Rattle.told.specs.Metres.{number_in, in_metres, list_put, level_put, two_put, place_put};
ghost use Rattle.told.specs.Decides.{whole_in, list_whole, level_whole, two_whole, place_whole};
ghost use Rattle.metre_lists.specs.Groups.{roomed, whole_of, end_of, put_of, Sized, laid, run_whole, run_put, run_bits, level_bits, place_bits};

use bits::{Cursor, behind};
use distance::{Scale, Steps};

// What a list is a list of, where it has distances: of ETCS-5, 21, 27, 41, 68 and 79, and of CTCS-1 and 2.
#[derive(Clone, Copy)]
pub enum Group {
    Links,
    Slopes,
    Profiles,
    Levels,
    Conditions,
    Places,
    Sections,
    Restrictions,
}

// How a group is laid out: how many bits it has, and where its distances are. The bytes and the scale are no struct: it would be no plainer for the two
// functions, group and each, that the public ones hand them to.
trait Layout {
    // whether the distances of one at a bit are whole metres that fit, in steps of a scale; what is put for it; how many bits it has
    ghost whole: { Self → List ℕ → ℕ → ℕ → Bool };

    ghost put: { Self → List ℕ → ℕ → ℕ → List ℕ → List ℕ };

    ghost bits: { Self → List ℕ → ℕ → ℕ };

    // a window holds what is read of it
    ghost sized: { Self → Type 0 };

    // Goes over the group at the bit x: how many bits it has, or not, where a distance is to be told and is not whole metres.
    fn group(&self, s: &[u8], k: Scale, x: usize, puts: bool, out: &mut [u8]) -> Option<usize>
        requires { (8 ≤ length s.now) × (4 ≤ length out.old) × (x ≤ 20000) × sized self.now }
        ensures told { result ≡ cond (cond puts true (whole self.now s.now (number_of k) x)) (Some (bits self.now s.now x)) None }
        ensures after { out.new ≡ cond puts (put self.now s.now (number_of k) x out.old) out.old }
        ensures low { IfSome result (λ n. n ≤ 400) };
}

// A group with one distance, at so many bits: it has so many bits, and step more for each that the field at flag, so many bits wide, counts.
#[derive(Clone, Copy)]
pub(crate) struct Run {
    pub at: usize,
    pub bits: usize,
    pub flag: usize,
    pub wide: usize,
    pub step: usize,
}

// ETCS-68, CTCS-2: two distances, in so many bits.
#[derive(Clone, Copy)]
struct Pair {
    bits: usize,
}

// ETCS-41: a distance behind NID_STM, if that is there.
#[derive(Clone, Copy)]
struct Level;

// ETCS-79: a distance behind NID_C, if that is there, and a position.
#[derive(Clone, Copy)]
struct Place;

// ---- a distance

// Whether the distance of 15 bits at the bit d is a whole number of metres that fits. Of fewer than eight bytes, which no telegram has: no.
pub fn distance_whole(s: &[u8], k: Scale, d: usize) -> bool
    ensures { result ≡ (leb 8 (length s.now) && whole_in s.now (number_of k) 15 d) }
{
    if s.len() < 8 {
        return false;
    }
    let c = Cursor { at: d };
    whole(c.look(s), k, 15)
}

// Puts it in metres. Into fewer than four bytes it puts nothing.
pub fn distance_put(s: &[u8], k: Scale, d: usize, out: &mut [u8])
    ensures { out.new ≡ cond (roomed s.now out.old) (in_metres s.now (number_of k) 15 d out.old) out.old }
{
    if s.len() < 8 {
        return;
    }
    if out.len() < 4 {
        return;
    }
    let c = Cursor { at: d };
    put(c.look(s), k, 15, d, out);
}

// Whether the number in the first bits of a window, so many, is in steps of a scale a whole number of metres that fits as many.
fn whole(w: u64, k: Scale, wide: usize) -> bool
    requires { wide ≤ 20 }
    ensures { result ≡ whole_metres wide (decimetres (number_of k) (sight.behind w 0 wide)) }
{
    let n = Steps::new(behind(w, 0, wide) as u32);
    n.whole_metres(k, wide)
}

// Puts it in metres at the bit at.
fn put(w: u64, k: Scale, wide: usize, at: usize, out: &mut [u8])
    requires { (wide ≤ 20) × (4 ≤ length out.old) }
    ensures { out.new ≡ put_at out.old at wide (steps 1 (decimetres (number_of k) (sight.behind w 0 wide))) }
{
    let n = Steps::new(behind(w, 0, wide) as u32);
    let d = n.decimetres(k);
    store::lay(out, at, wide, d.metres());
}

// Puts it, or tells whether it is whole metres.
fn told(w: u64, k: Scale, wide: usize, at: usize, puts: bool, out: &mut [u8]) -> bool
    requires { (wide ≤ 20) × (4 ≤ length out.old) }
    ensures { (result ≡ cond puts true (whole_metres wide (decimetres (number_of k) (sight.behind w 0 wide)))) × (out.new ≡ cond puts (put_at out.old at wide (steps 1 (decimetres (number_of k) (sight.behind w 0 wide)))) out.old) }
{
    if puts {
        put(w, k, wide, at, out);
        return true;
    }
    whole(w, k, wide)
}

// ---- groups

impl Run {
    fn new(at: usize, bits: usize, flag: usize, wide: usize, step: usize) -> Run
        ensures { result ≡ laid at bits flag wide step }
    {
        Run {
            at,
            bits,
            flag,
            wide,
            step,
        }
    }
}

impl Layout for Run {
    ghost whole = { run_whole };

    ghost put = { run_put };

    ghost bits = { run_bits };

    ghost sized = { Sized };

    fn group(&self, s: &[u8], k: Scale, x: usize, puts: bool, out: &mut [u8]) -> Option<usize> {
        let c = Cursor { at: x };
        let w = c.look(s);
        if !told(w << self.at, k, 15, x + self.at, puts, out) {
            return None;
        }
        Some(self.bits + self.step * ((w << self.flag) >> (64 - self.wide)) as usize)
    }
}

impl Layout for Pair {
    ghost whole = { λ g s q y. two_whole s q y };

    ghost put = { λ g s q y out. two_put s q y out };

    ghost bits = { λ g s y. g.bits };

    ghost sized = { λ g. g.bits ≤ 400 };

    fn group(&self, s: &[u8], k: Scale, x: usize, puts: bool, out: &mut [u8]) -> Option<usize> {
        let c = Cursor { at: x };
        let w = c.look(s);
        if !told(w, k, 15, x, puts, out) {
            return None;
        }
        if !told(w << 15, k, 15, x + 15, puts, out) {
            return None;
        }
        Some(self.bits)
    }
}

impl Layout for Level {
    ghost whole = { λ g s q y. level_whole s q y };

    ghost put = { λ g s q y out. level_put s q y out };

    ghost bits = { λ g s y. level_bits s y };

    ghost sized = { λ g. Unit {0} };

    fn group(&self, s: &[u8], k: Scale, x: usize, puts: bool, out: &mut [u8]) -> Option<usize> {
        let c = Cursor { at: x };
        let w = c.look(s);
        let d = if behind(w, 0, 3) == 1 { 11 } else { 3 };
        if !told(w << d, k, 15, x + d, puts, out) {
            return None;
        }
        Some(d + 15)
    }
}

impl Layout for Place {
    ghost whole = { λ g s q y. place_whole s q y };

    ghost put = { λ g s q y out. place_put s q y out };

    ghost bits = { λ g s y. place_bits s y };

    ghost sized = { λ g. Unit {0} };

    fn group(&self, s: &[u8], k: Scale, x: usize, puts: bool, out: &mut [u8]) -> Option<usize> {
        let c = Cursor { at: x };
        let d = if behind(c.look(s), 0, 1) == 1 { 25 } else { 15 };
        let e = Cursor { at: x + d };
        let w = e.look(s);
        if !told(w, k, 15, x + d, puts, out) {
            return None;
        }
        if !told(w << 16, k, 20, x + d + 16, puts, out) {
            return None;
        }
        Some(d + 36)
    }
}

// ---- lists: a group, N_ITER, and that many further groups

// Whether the list that begins at the bit x can be told in metres; with puts, it is put so. Behind bit 900, where no list begins: no.
// What may not change: puts is a flag in this function's promise (list_once), so both passes over a list go by it.
pub fn list(s: &[u8], k: Scale, g: Group, x: usize, puts: bool, out: &mut [u8]) -> bool
    ensures { (result ≡ (roomed s.now out.old && leb x 900 && cond puts true (list_whole s.now (whole_of g s.now (number_of k)) (end_of g s.now) x))) × (out.new ≡ cond (roomed s.now out.old && leb x 900 && puts) (list_put s.now (put_of g s.now (number_of k)) (end_of g s.now) x out.old) out.old) }
{
    if s.len() < 8 {
        return false;
    }
    if out.len() < 4 {
        return false;
    }
    if 900 < x {
        return false;
    }
    match g {
        Group::Links => each(&Run::new(0, 39, 15, 1, 10), s, k, x, puts, out),
        Group::Slopes => each(&Run::new(0, 24, 0, 1, 0), s, k, x, puts, out),
        Group::Profiles => each(&Run::new(0, 28, 23, 5, 11), s, k, x, puts, out),
        Group::Levels => each(&Level, s, k, x, puts, out),
        Group::Conditions => each(&Pair { bits: 34 }, s, k, x, puts, out),
        Group::Places => each(&Place, s, k, x, puts, out),
        Group::Sections => each(&Run::new(9, 24, 0, 1, 0), s, k, x, puts, out),
        Group::Restrictions => each(&Pair { bits: 38 }, s, k, x, puts, out),
    }
}

// A list of groups that are laid out so.
fn each<L: Layout>(g: &L, s: &[u8], k: Scale, x: usize, puts: bool, out: &mut [u8]) -> bool
    requires { (8 ≤ length s.now) × (4 ≤ length out.old) × (x ≤ 900) × L.sized g.now }
    ensures { (result ≡ cond puts true (list_whole s.now (L.whole g.now s.now (number_of k)) (λ y. y + L.bits g.now s.now y) x)) × (out.new ≡ cond puts (list_put s.now (L.put g.now s.now (number_of k)) (λ y. y + L.bits g.now s.now y) x out.old) out.old) }
{
    let Some(bits) = g.group(s, k, x, puts, out) else {
        return false;
    };
    let c = Cursor { at: x + bits };
    let mut at = x + bits + 5;
    for _ in 0..behind(c.look(s), 0, 5) {
        let Some(more) = g.group(s, k, at, puts, out) else {
            return false;
        };
        at += more;
    }
    true
}
