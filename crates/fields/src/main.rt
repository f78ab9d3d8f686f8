// Takes and puts a table of fields with the compiled code, and prints what each answers: fields inside a byte, over a byte's
// edge and over nine bytes, fields of no bits, and whatever is no field, up to the largest numbers there are.
#![tactic(auto)]

use bits::Cursor;
use std::fmt::Display;

// The first n bits of nine bytes, in which a field of width bits begins at the bit at.
const TAKES: [(usize, usize, usize); 18] = [
    (72, 0, 8),
    (72, 4, 8),
    (72, 7, 3),
    (72, 8, 57),
    (72, 4, 64),
    (72, 8, 64),
    (72, 9, 63),
    (72, 72, 0),
    (71, 63, 8),
    (0, 0, 0),
    (72, 73, 0),
    (71, 64, 8),
    (73, 0, 8),
    (72, 0, 65),
    (64, usize::MAX, 64),
    (usize::MAX, 0, 64),
    (72, 0, usize::MAX),
    (usize::MAX, usize::MAX, usize::MAX),
];

// Where a field of width bits is put, and what it is to hold.
const PUTS: [(usize, usize, u64); 12] = [
    (0, 8, 90),
    (4, 8, 195),
    (5, 60, 81985529216486895),
    (8, 64, u64::MAX),
    (71, 1, 0),
    (72, 0, 0),
    (72, 1, 1),
    (0, 8, 256),
    (0, 65, 0),
    (9, 64, 0),
    (usize::MAX, 3, 0),
    (0, 0, 1),
];

fn main(rt: HostRuntime) {
    for (n, at, width) in TAKES {
        take_row(rt, n, at, width);
    }
    for (at, width, value) in PUTS {
        put_row(rt, at, width, value);
    }
}

// Takes the field of width bits at the bit at, of the first n bits of nine bytes.
fn take_row(rt: HostRuntime, n: usize, at: usize, width: usize) {
    let s = b"\x01\x23\x45\x67\x89\xab\xcd\xef\x12";
    word(rt, "take of ", n);
    word(rt, " at ", at);
    word(rt, " width ", width);
    match (Cursor { at }).take(s, n, width) {
        Some((value, next)) => {
            word(rt, ": ", value);
            word(rt, ", next ", next.at);
        }
        None => say(rt, ": short"),
    }
    say(rt, "\n");
}

// Puts the field over nine bytes of 165, so that a neighbour that changes shows, whichever way.
fn put_row(rt: HostRuntime, at: usize, width: usize, value: u64) {
    let mut out = [165u8; 9];
    word(rt, "put at ", at);
    word(rt, " width ", width);
    word(rt, " value ", value);
    if store::put(&mut out, at, width, value) {
        say(rt, ": wrote");
    } else {
        say(rt, ": left ");
    }
    for b in out {
        say(rt, " ");
        say(rt, format_args!("{b:02x}"));
    }
    say(rt, "\n");
}

fn word<N: Display + Drop>(rt: HostRuntime, text: &str, n: N) {
    say(rt, text);
    say(rt, n);
}

// Writes a piece by itself. One that cannot be written changes nothing that follows: whoever compares what is printed sees what it lacks.
fn say<D: Display + Drop>(rt: HostRuntime, piece: D) {
    let _ = rt.print(piece);
}
