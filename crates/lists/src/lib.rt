// Lists inside packets, gone over a group at a time: one window ahead for each.
//
// Every promise says what stands in the bytes, whatever they are (specs/Lists.antt). A list that is counted here keeps its rules, field by field: that is a law above
// this crate. Each function is given the first n bits of s, at most 830, and a packet that begins at the cursor and ends at the bit end, and counts its values; it
// is None where a group breaks a rule, and where the list does not end there. s and n are no struct: n counts bits,
// and `bits::Cursor`, by which all is read here, takes them apart.
#![tactic(auto)]

ghost use Rattle.std.specs.Prelude.{◌≡◌, ◌≤◌, List, ℕ};
ghost use Rattle.hops.specs.Hops.{Small, kept, counted, link_in, transition_in, choice_in, condition_in, circuit_in};
ghost use Rattle.hops.specs.declared.Hop.{Hop};
ghost use Rattle.hops.proofs.Bounds.{link_small, transition_small, choice_small, condition_small, circuit_small};
ghost use Rattle.lists.specs.Lists.{group_at, others_at, Bounded, list_at, apart_at, packet_list, links_at, levels_at, choices_at, conditions_at, circuits_at};
ghost use Rattle.std.proofs.Common.{rules};
ghost use Rattle.lists.specs.Laws.{seen_small, seen_inside};

use bits::{Cursor, behind};
use hops::{Hop, N_ITER, choice, circuit, condition, link, transition};
use packets::heads::OUTER_HEAD;
use packets::{Circuits, Conditional, Level, Linking, Track};

// A kind of group, of which a list has many: how the one that begins at a bit is found.
pub trait Group {
    ghost at: { List ℕ → ℕ → ℕ → Hop };

    // By what stands there, in no more than 830 bits.
    fn find(s: &[u8], n: usize, c: Cursor) -> Option<Hop>
        ensures { n ≤ 830 → result ≡ kept (at s.now n c.at) };

    // No number grows too large for the code.
    ghost small: { (s : List ℕ) (n x : ℕ) → Small (at s n x) };

    // One that keeps its rules begins inside.
    ghost inside: { (s : List ℕ) (n x : ℕ) → ((at s n x).bits ≡ 0 → ⊥) → x ≤ n };
}

// A kind of group that is known by the window at its first bit.
pub trait Windowed {
    // The bits that it has at least.
    const WIDTH: usize;

    ghost WIDTH: { ℕ };

    ghost hop: { ℕ → Hop };

    fn hop(w: u64) -> Option<Hop>
        ensures { result ≡ kept (hop w) };

    ghost hop_small: { (w : ℕ) → Small (hop w) };

    ghost narrow: { WIDTH ≤ 57 };
}

impl<W: Windowed> Group for W {
    ghost at = { λ s n. group_at s n W.WIDTH W.hop };

    ghost small = { seen_small W.WIDTH W.hop W.hop_small };

    ghost inside = { seen_inside W.WIDTH W.hop };

    fn find(s: &[u8], n: usize, c: Cursor) -> Option<Hop> {
        let (w, _) = c.ahead(s, n, W::WIDTH)?;
        W::hop(w)
    }
}

// Of ETCS-5.
struct Link;

impl Windowed for Link {
    const WIDTH: usize = 39;

    ghost WIDTH = { 39 };

    ghost hop = { link_in };

    ghost hop_small = { link_small };

    ghost narrow = { Prim.search rules };

    fn hop(w: u64) -> Option<Hop> {
        link(w)
    }
}

// Of ETCS-41.
struct Transition;

impl Windowed for Transition {
    const WIDTH: usize = 18;

    ghost WIDTH = { 18 };

    ghost hop = { transition_in };

    ghost hop_small = { transition_small };

    ghost narrow = { Prim.search rules };

    fn hop(w: u64) -> Option<Hop> {
        transition(w)
    }
}

// Of ETCS-46.
struct Choice;

impl Windowed for Choice {
    const WIDTH: usize = 3;

    ghost WIDTH = { 3 };

    ghost hop = { choice_in };

    ghost hop_small = { choice_small };

    ghost narrow = { Prim.search rules };

    fn hop(w: u64) -> Option<Hop> {
        choice(w)
    }
}

// Of ETCS-68.
struct Condition;

impl Windowed for Condition {
    const WIDTH: usize = 34;

    ghost WIDTH = { 34 };

    ghost hop = { condition_in };

    ghost hop_small = { condition_small };

    ghost narrow = { Prim.search rules };

    fn hop(w: u64) -> Option<Hop> {
        condition(w)
    }
}

// Of CTCS-1.
struct Circuit;

impl Windowed for Circuit {
    const WIDTH: usize = 24;

    ghost WIDTH = { 24 };

    ghost hop = { circuit_in };

    ghost hop_small = { circuit_small };

    ghost narrow = { Prim.search rules };

    fn hop(w: u64) -> Option<Hop> {
        circuit(w)
    }
}

// ETCS-5, behind its Q_SCALE.
pub fn links(s: &[u8], n: usize, start: Cursor, end: usize) -> Option<usize>
    ensures { result ≡ counted (links_at s.now n end start.at) }
{
    list::<Link>(s, n, start, end, Linking::HEAD, 4)
}

// ETCS-41, behind its D_LEVELTR.
pub fn levels(s: &[u8], n: usize, start: Cursor, end: usize) -> Option<usize>
    ensures { result ≡ counted (levels_at s.now n end start.at) }
{
    list::<Transition>(s, n, start, end, Level::HEAD + 15, 5)
}

// ETCS-46, behind its L_PACKET.
pub fn choices(s: &[u8], n: usize, start: Cursor, end: usize) -> Option<usize>
    ensures { result ≡ counted (choices_at s.now n end start.at) }
{
    list::<Choice>(s, n, start, end, Conditional::HEAD, 3)
}

// ETCS-68, behind a Q_TRACKINIT of 0.
pub fn conditions(s: &[u8], n: usize, start: Cursor, end: usize) -> Option<usize>
    ensures { result ≡ counted (conditions_at s.now n end start.at) }
{
    list::<Condition>(s, n, start, end, Track::HEAD + 1, 5)
}

// CTCS-1 inside its ETCS-44, behind its D_SIGNAL.
pub fn circuits(s: &[u8], n: usize, start: Cursor, end: usize) -> Option<usize>
    ensures { result ≡ counted (circuits_at s.now n end start.at) }
{
    list::<Circuit>(s, n, start, end, OUTER_HEAD + Circuits::HEAD + 15, 8)
}

// A packet that ends in a list, behind so many bits and values of its own. The first group and N_ITER lie in one window.
fn list<W: Windowed>(
    s: &[u8],
    n: usize,
    start: Cursor,
    end: usize,
    head: usize,
    before: u8,
) -> Option<usize>
    ensures { result ≡ counted (packet_list n head (list_at s.now n W.WIDTH W.hop end before) start.at) }
{
    if 830 < n {
        return None;
    }
    let first = start.skip(n, head)?;
    let (w, _) = first.ahead(s, n, W::WIDTH + N_ITER)?;
    let h = W::hop(w)?;
    let next = Cursor {
        at: first.at + h.bits + N_ITER,
    };
    others::<W>(
        s,
        n,
        next,
        end,
        behind(w, h.bits, N_ITER),
        before as usize + h.values + 1,
    )
}

// The same where a group is too wide for that: N_ITER is taken by itself.
pub fn apart<G: Group>(
    s: &[u8],
    n: usize,
    start: Cursor,
    end: usize,
    head: usize,
    before: u8,
) -> Option<usize>
    ensures { result ≡ counted (packet_list n head (apart_at (G.at s.now n) s.now n end before) start.at) }
{
    if 830 < n {
        return None;
    }
    let first = start.skip(n, head)?;
    let h = G::find(s, n, first)?;
    let iter = Cursor {
        at: first.at + h.bits,
    };
    let (times, next) = iter.take(s, n, N_ITER)?;
    others::<G>(s, n, next, end, times, before as usize + h.values + 1)
}

// So many groups from the cursor on, with so many values before them.
fn others<G: Group>(
    s: &[u8],
    n: usize,
    first: Cursor,
    end: usize,
    times: u64,
    before: usize,
) -> Option<usize>
    requires { Bounded n first.at times before × 1 ≤ before }
    ensures { result ≡ counted (others_at (G.at s.now n) end times first.at before) }
{
    let mut c = first;
    let mut values = before;
    for _ in 0..times {
        let h = G::find(s, n, c)?;
        c = Cursor { at: c.at + h.bits };
        values += h.values;
    }
    if c.at == end {
        return Some(values);
    }
    None
}
