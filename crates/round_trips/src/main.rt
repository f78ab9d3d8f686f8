// Runs each round trip of `again`, `normals` and `alike` over a table of telegrams: with too little room in the one buffer, in the other, and then with just
// enough in both. Prints what it answers and all that it leaves. What is lent is full of one number, so that whatever changes shows.
#![tactic(auto)]

mod show;

use show::{answer, asked, changes, compared};

// What is lent holds these numbers, which no telegram below has.
const VALUE: u64 = 9999;

const BYTE: u8 = 165;

fn main(rt: HostRuntime) {
    rewrites(rt);
    rereads(rt);
    renormalises(rt);
    compares(rt);
}

// Makes a round trip with too little room in the one buffer, in the other, and with enough in both.
fn in_each_room<A, B, F: Fn(&mut [A], &mut [B])>(
    few: &mut [A],
    first: &mut [A],
    less: &mut [B],
    second: &mut [B],
    trip: F,
)
    requires { F.IsAlwaysCallable trip }
{
    trip(few, second);
    trip(first, less);
    trip(first, second);
}

// The telegram of a header and an end mark, with an unused bit set, of one bit more, and of no bits; the stop telegram.
fn rewrites(rt: HostRuntime) {
    let mark = b"\x90\x02\x7f\x81\x25\xdf\xff\xc0";
    rewrite(rt, mark, 58);
    rewrite(rt, b"\x90\x02\x7f\x81\x25\xdf\xff\xc1", 58);
    rewrite(rt, mark, 59);
    rewrite(rt, b"", usize::MAX);
    rewrite(
        rt,
        b"\x90\x02\x7f\x81\x25\xdf\xcb\x10\x18\x01\x50\x0c\xa1\x10\x0c\x22\x50\x0c\x3f\xc0",
        154,
    );
}

fn rewrite(rt: HostRuntime, s: &[u8], n: usize) {
    let mut few = [VALUE; 829];
    let mut run = [VALUE; 830];
    let mut less = [BYTE; 103];
    let mut out = [BYTE; 104];
    in_each_room(&mut few, &mut run, &mut less, &mut out, |run, out| {
        let a = again::rewritten(s, n, run, out);
        asked(rt, "rewritten of ", n, run.len(), out.len());
        answer(rt, a);
        changes(rt, run, VALUE);
        changes(rt, out, BYTE);
    });
}

// The values of a header and an end mark, with another M_VERSION, with none behind the header, and with one more.
fn rereads(rt: HostRuntime) {
    reread(rt, &[1, 16, 0, 0, 1, 0, 255, 9, 3007, 1, 255]);
    reread(rt, &[1, 33, 0, 0, 1, 0, 255, 9, 3007, 1, 255]);
    reread(rt, &[1, 16, 0, 0, 1, 0, 255, 9, 3007, 1]);
    reread(rt, &[1, 16, 0, 0, 1, 0, 255, 9, 3007, 1, 255, 0]);
}

fn reread(rt: HostRuntime, list: &[u64]) {
    let mut less = [BYTE; 103];
    let mut out = [BYTE; 104];
    let mut few = [VALUE; 829];
    let mut run = [VALUE; 830];
    in_each_room(&mut less, &mut out, &mut few, &mut run, |out, run| {
        let a = again::reread(list, out, run);
        asked(rt, "reread of ", list.len(), out.len(), run.len());
        answer(rt, a);
        changes(rt, out, BYTE);
        changes(rt, run, VALUE);
    });
}

// CTCS-3 at 10 m, a bit less, and a bit more.
fn renormalises(rt: HostRuntime) {
    let tens = b"\x90\x02\x7f\x81\x25\xdf\xcb\x10\x27\x80\xd0\x1c\x40\x0c\x80\xc8\x7f\x80";
    for n in [137, 136, 138] {
        renormalise(rt, tens, n);
    }
}

fn renormalise(rt: HostRuntime, s: &[u8], n: usize) {
    let mut few = [BYTE; 103];
    let mut x = [BYTE; 104];
    let mut less = [BYTE; 103];
    let mut y = [BYTE; 104];
    in_each_room(&mut few, &mut x, &mut less, &mut y, |x, y| {
        let a = normals::renormalised(s, n, x, y);
        asked(rt, "renormalised of ", n, x.len(), y.len());
        answer(rt, a);
        changes(rt, x, BYTE);
        changes(rt, y, BYTE);
    });
}

// 50 and 400 at 10 m beside 500 and 4000, and 501 and 4000, at 1 m, and beside no packet; the second with an unused bit set, the first, and both.
fn compares(rt: HostRuntime) {
    let tens = b"\x90\x02\x7f\x81\x25\xdf\xcb\x10\x27\x80\xd0\x1c\x40\x0c\x80\xc8\x7f\x80";
    let unclear = b"\x90\x02\x7f\x81\x25\xdf\xcb\x10\x27\x80\xd0\x1c\x20\x7d\x47\xd0\x7f\x81";
    compare(
        rt,
        tens,
        b"\x90\x02\x7f\x81\x25\xdf\xcb\x10\x27\x80\xd0\x1c\x20\x7d\x07\xd0\x7f\x80",
        137,
    );
    compare(
        rt,
        tens,
        b"\x90\x02\x7f\x81\x25\xdf\xcb\x10\x27\x80\xd0\x1c\x20\x7d\x47\xd0\x7f\x80",
        137,
    );
    compare(rt, tens, b"\x90\x02\x7f\x81\x25\xdf\xff\xc0", 58);
    compare(rt, tens, unclear, 137);
    compare(rt, unclear, tens, 137);
    compare(rt, unclear, unclear, 137);
}

fn compare(rt: HostRuntime, s: &[u8], t: &[u8], m: usize) {
    let mut few = [BYTE; 103];
    let mut x = [BYTE; 104];
    let mut less = [BYTE; 103];
    let mut y = [BYTE; 104];
    in_each_room(&mut few, &mut x, &mut less, &mut y, |x, y| {
        let a = alike::says_same(s, 137, t, m, x, y);
        asked(rt, "says_same of 137 and ", m, x.len(), y.len());
        compared(rt, a);
        changes(rt, x, BYTE);
        changes(rt, y, BYTE);
    });
}
