// The packets of a telegram put over a copy of it in metres, where each distance is a whole number of metres that fits.
//
// Numbers are read in the bytes s, which hold the telegram as it was sent, and put into out at the same places: crate `told` has what is put, kind by
// kind.
#![tactic(auto)]

ghost use Rattle.std.specs.Prelude.{◌&&◌, cond, ◌≡◌, eqb, ◌+◌, ◌≤◌, length};
ghost use Rattle.bits.specs.Ahead.{seen_at, number_at};
ghost use Rattle.distance.specs.Distance.{number_of};
ghost use Rattle.metre_lists.specs.Groups.{whole_of, end_of, put_of};
ghost use Rattle.retelling.specs.Retold.{told_by, Within, Turns, scale_bit, patched_to};
ghost use Rattle.told.specs.Metres.{number_in, in_metres, text_in_metres, metres_said, list_put, conditions_put, text_put};
ghost use Rattle.told.specs.Decides.{whole_in, text_whole, list_whole, conditions_whole, words_whole, user_put, kind_put, packet_put};

use bits::{Cursor, behind};
use distance::Scale;
use metre_lists::{Group, distance_put, distance_whole};
use packets::{
    Circuits, Gradient, Level, Linking, National, Position, Restriction, Reversing, Speed, Text,
    Track, Transition, Turnout,
};

// A packet that begins at the bit x of a telegram's bytes s, and what lies ahead there.
#[derive(Clone, Copy)]
struct Packet<'a> {
    s: &'a [u8],
    x: usize,
    w: u64,
    ghost within: { Within s.now x w },
}

// A packet that is not in metres: the bytes that it stands in, its scale, and the bit where that is said. What is lent is no field of it: a struct with a
// &mut would be no plainer, as it is handed on from call to call.
#[derive(Clone, Copy)]
struct Scaled<'a> {
    s: &'a [u8],
    k: Scale,
    q: usize,
    ghost long: { 8 ≤ length s.now },
}

// Puts every packet of a telegram of n bits over what is lent, from packet to packet by their L_PACKET, up to the end mark. Of fewer than eight bytes
// and more than 830 bits, which no telegram has, it puts nothing, nor into fewer than four bytes.
pub fn patch(s: &[u8], n: usize, out: &mut [u8])
    ensures { out.new ≡ patched_to s.now n out.old }
{
    if s.len() < 8 {
        return;
    }
    if out.len() < 4 {
        return;
    }
    if 830 < n {
        return;
    }
    let mut x = 50;
    while x + 8 < n {
        let c = Cursor { at: x };
        let p = Packet { s, x, w: c.look(s) };
        tell(&p, out);
        let long = behind(p.w, 10, 13) as usize;
        if long == 0 {
            return;
        }
        x += long;
    }
}

// Puts the packet in metres, where it can be told so. Most packets are in metres, or have no scale: they are told by their Q_SCALE, before their kind.
fn tell(p: &Packet, out: &mut [u8])
    requires { 4 ≤ length out.old }
    ensures { out.new ≡ packet_put p.now.s.now p.now.x out.old }
{
    let id = behind(p.w, 0, 8);
    let at = if id == National::ID { 47 } else { 23 };
    let Some(k) = Scale::of(behind(p.w, at, 2)) else {
        return;
    };
    match k {
        Scale::Metres => {}
        Scale::Tenths | Scale::Tens => kind(p, k, out),
    }
}

// By its NID_PACKET.
fn kind(p: &Packet, k: Scale, out: &mut [u8])
    requires { (4 ≤ length out.old) × Turns p.now.s.now (p.now.x + scale_bit p.now.s.now p.now.x) k }
    ensures { out.new ≡ kind_put p.now.s.now p.now.x (number_in p.now.s.now 8 p.now.x) out.old }
{
    let x = p.x;
    let t = Scaled {
        s: p.s,
        k,
        q: x + 23,
    };
    match behind(p.w, 0, 8) {
        Linking::ID => t.list(Group::Links, x + Linking::HEAD, out),
        Gradient::ID => t.list(Group::Slopes, x + Gradient::HEAD, out),
        Speed::ID => t.list(Group::Profiles, x + Speed::HEAD, out),
        Level::ID => t.led(x + Level::HEAD, Group::Levels, out),
        National::ID => user(p, k, out),
        Track::ID => track(p, k, out),
        Text::ID => text(p, k, out),
        Position::ID => t.list(Group::Places, x + Position::HEAD, out),
        Transition::ID => t.one(x + Transition::HEAD, out),
        _ => {}
    }
}

// An ETCS-44, by the NID_XUSER of the CTCS packet in it.
fn user(p: &Packet, k: Scale, out: &mut [u8])
    requires { (4 ≤ length out.old) × Turns p.now.s.now (p.now.x + 47) k }
    ensures { out.new ≡ user_put p.now.s.now p.now.x (number_in p.now.s.now 9 (p.now.x + 23)) out.old }
{
    let x = p.x;
    let t = Scaled {
        s: p.s,
        k,
        q: x + 47,
    };
    match behind(p.w, 23, 9) {
        Circuits::ID => t.led(x + 49, Group::Sections, out),
        Restriction::ID => t.led(x + 49, Group::Restrictions, out),
        Reversing::ID => t.two(x + 49, out),
        Turnout::ID => t.one(x + 49, out),
        _ => {}
    }
}

// ETCS-68: D_TRACKINIT, or a list.
fn track(p: &Packet, k: Scale, out: &mut [u8])
    requires { 4 ≤ length out.old }
    ensures { out.new ≡ told_by (p.now.x + 23) (conditions_whole p.now.s.now p.now.x (number_of k)) (conditions_put p.now.s.now p.now.x (number_of k)) out.old }
{
    let x = p.x;
    let t = Scaled {
        s: p.s,
        k,
        q: x + 23,
    };
    if behind(p.w, 25, 1) == 1 {
        t.one(x + 26, out);
        return;
    }
    t.list(Group::Conditions, x + 26, out);
}

// ETCS-72: D_TEXTDISPLAY, and L_TEXTDISPLAY, which may be unlimited.
fn text(p: &Packet, k: Scale, out: &mut [u8])
    requires { 4 ≤ length out.old }
    ensures { out.new ≡ told_by (p.now.x + 23) (words_whole p.now.s.now p.now.x (number_of k)) (text_put p.now.s.now p.now.x (number_of k)) out.old }
{
    let x = p.x;
    let t = Scaled {
        s: p.s,
        k,
        q: x + 23,
    };
    if !distance_whole(t.s, k, x + 28) {
        return;
    }
    let c = Cursor { at: x + 47 };
    let d = if behind(c.look(t.s), 0, 3) == 1 {
        x + 58
    } else {
        x + 50
    };
    if !t.length_whole(d) {
        return;
    }
    distance_put(t.s, k, x + 28, out);
    t.length_put(d, out);
    said(t.q, out);
}

impl Scaled<'_> {
    // A distance at the bit d.
    fn one(&self, d: usize, out: &mut [u8])
        requires { 4 ≤ length out.old }
        ensures { out.new ≡ told_by self.now.q (whole_in self.now.s.now (number_of self.now.k) 15 d) (in_metres self.now.s.now (number_of self.now.k) 15 d) out.old }
    {
        if !distance_whole(self.s, self.k, d) {
            return;
        }
        distance_put(self.s, self.k, d, out);
        said(self.q, out);
    }

    // A distance at the bit d and one behind it.
    fn two(&self, d: usize, out: &mut [u8])
        requires { (4 ≤ length out.old) × (d ≤ 900) }
        ensures { out.new ≡ told_by self.now.q (whole_in self.now.s.now (number_of self.now.k) 15 d && whole_in self.now.s.now (number_of self.now.k) 15 (d + 15)) (λ o. in_metres self.now.s.now (number_of self.now.k) 15 (d + 15) (in_metres self.now.s.now (number_of self.now.k) 15 d o)) out.old }
    {
        if !distance_whole(self.s, self.k, d) {
            return;
        }
        if !distance_whole(self.s, self.k, d + 15) {
            return;
        }
        distance_put(self.s, self.k, d, out);
        distance_put(self.s, self.k, d + 15, out);
        said(self.q, out);
    }

    // A list that begins at the bit x.
    fn list(&self, g: Group, x: usize, out: &mut [u8])
        requires { (4 ≤ length out.old) × (x ≤ 900) }
        ensures { out.new ≡ told_by self.now.q (list_whole self.now.s.now (whole_of g self.now.s.now (number_of self.now.k)) (end_of g self.now.s.now) x) (list_put self.now.s.now (put_of g self.now.s.now (number_of self.now.k)) (end_of g self.now.s.now) x) out.old }
    {
        if !metre_lists::list(self.s, self.k, g, x, false, out) {
            return;
        }
        metre_lists::list(self.s, self.k, g, x, true, out);
        said(self.q, out);
    }

    // A distance at the bit d, and a list behind it.
    fn led(&self, d: usize, g: Group, out: &mut [u8])
        requires { (4 ≤ length out.old) × (d ≤ 880) }
        ensures { out.new ≡ told_by self.now.q (whole_in self.now.s.now (number_of self.now.k) 15 d && list_whole self.now.s.now (whole_of g self.now.s.now (number_of self.now.k)) (end_of g self.now.s.now) (d + 15)) (λ o. list_put self.now.s.now (put_of g self.now.s.now (number_of self.now.k)) (end_of g self.now.s.now) (d + 15) (in_metres self.now.s.now (number_of self.now.k) 15 d o)) out.old }
    {
        if !distance_whole(self.s, self.k, d) {
            return;
        }
        if !metre_lists::list(self.s, self.k, g, d + 15, false, out) {
            return;
        }
        distance_put(self.s, self.k, d, out);
        metre_lists::list(self.s, self.k, g, d + 15, true, out);
        said(self.q, out);
    }

    // Whether the length of a text at the bit d is unlimited, or whole metres that fit.
    fn length_whole(&self, d: usize) -> bool
        ensures { result ≡ text_whole self.now.s.now (number_of self.now.k) d }
    {
        let c = Cursor { at: d };
        if behind(c.look(self.s), 0, 15) == 32767 {
            return true;
        }
        distance_whole(self.s, self.k, d)
    }

    fn length_put(&self, d: usize, out: &mut [u8])
        requires { 4 ≤ length out.old }
        ensures { out.new ≡ text_in_metres self.now.s.now (number_of self.now.k) d out.old }
    {
        let c = Cursor { at: d };
        if behind(c.look(self.s), 0, 15) == 32767 {
            return;
        }
        distance_put(self.s, self.k, d, out);
    }
}

// Says that a packet with its scale at the bit q is in metres.
fn said(q: usize, out: &mut [u8])
    requires { 4 ≤ length out.old }
    ensures { out.new ≡ metres_said q out.old }
{
    store::lay(out, q, 2, 1);
}
