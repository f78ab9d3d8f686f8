// Telegrams as data sheets and back: `out` prints the sheet of the telegram that standard input has as a line of characters 0 and 1, `in`
// the line of the telegram whose sheet standard input has. What is refused is printed by its number and its place, or row.
#![tactic(auto)]

ghost use Rattle.printed.specs.Printed.{out_text};
ghost use Rattle.printed_in.specs.Sheet.{in_text};
ghost use Rattle.sheets.specs.Input.{Prints};

mod answer;

use crate::answer::{from_start_of_line, from_start_of_sheet};
use filling::fill;
use std::env::{Env, FillError};

// What the arguments ask for.
#[derive(Clone, Copy)]
enum Way {
    Out,
    In,
    Other,
}

fn main(rt: HostRuntime) {
    match asked(rt) {
        Way::Out => out(rt),
        Way::In => take_in(rt),
        Way::Other => usage(rt),
    }
}

// The program's name is an argument too. A word of more than three characters, which is neither of the two, finds no room.
fn asked(rt: HostRuntime) -> Way {
    let mut space = [0u8; 3];
    if is_there(rt, 2) {
        return Way::Other;
    }
    match rt.arg(1, &mut space) {
        Ok(n) => meant(&space[..n]),
        Err(_) => Way::Other,
    }
}

// Whether the program has an argument of this number.
fn is_there(rt: HostRuntime, number: usize) -> bool {
    !matches!(rt.arg(number, &mut []), Err(FillError::NotPresent))
}

fn meant(word: &[u8]) -> Way {
    match word {
        b"out" => Way::Out,
        b"in" => Way::In,
        _ => Way::Other,
    }
}

// No more of a line is read than tells what is printed for it.
fn out(rt: HostRuntime) {
    let mut input = printed::line_buffer();
    let Ok(n) = fill(rt.stdin(), &mut input) else {
        return unread(rt);
    };
    let mut text = io::large_buffer();
    let end = from_start_of_line(&input, n, &mut text);
    print_sheet(rt, &text[..end]);
}

// A header takes 21 bytes and no row more than 43. So 35,712 bytes tell whether each of 830 rows is one and whether more follows, and no
// more than a buffer is read.
fn take_in(rt: HostRuntime) {
    let mut input = io::large_buffer();
    let Ok(n) = fill(rt.stdin(), &mut input) else {
        return unread(rt);
    };
    let mut text = [0u8; 1024];
    let end = from_start_of_sheet(&input, n, &mut text);
    print_line(rt, &text[..end]);
}

// The sheet of the line that was read, or why there is none. This and the next print alike and differ in what is asked of the text alone.
fn print_sheet(rt: HostRuntime, text: &[u8])
    requires { Prints out_text text.now }
{
    print(rt, text);
}

// The line of the sheet that was read, or why there is none.
fn print_line(rt: HostRuntime, text: &[u8])
    requires { Prints in_text text.now }
{
    print(rt, text);
}

// An input that cannot be read to its end gets no answer.
fn unread(rt: HostRuntime) {
    let _ = rt.stderr().write_all(b"sheets: reading failed\n");
}

fn usage(rt: HostRuntime) {
    print(rt, b"usage: sheets out | in\n");
}

// A write that fails is told: a part of a sheet does not say that it is one.
fn print(rt: HostRuntime, text: &[u8]) {
    if rt.stdout().write_all(text).is_err() {
        let _ = rt.stderr().write_all(b"sheets: writing failed\n");
    }
}
