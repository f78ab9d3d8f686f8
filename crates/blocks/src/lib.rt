// Lines out of blocks of standard input. A line may reach over any number of blocks; of each, as many characters are kept as are lent
// for it. Every public function answers every input.
#![tactic(auto)]

ghost use Rattle.std.specs.Prelude.{◌≡◌, ◌≤◌, length};
ghost use Rattle.blocks.specs.Reading.{nothing, stopped, Keeps, Held, TakesOn, Arrives, Steps};

mod reads;

use crate::reads::read;
use std::io::Stdin;
use word64::lower;

// A read failed. How it did changes no answer, so that this says no more.
#[derive(Clone, Copy, Debug, PartialEq, Eq)]
pub struct ReadFailed;

// Where reading stands: from where to where the block is still to be taken on, how many characters of the line in hand are kept, whether
// that line is whole, and whether the input ended, of itself or because it could not be read. The next step behind a whole
// line begins another. Flags and no enum of states: `arrived_at`, `goes_on` and the programs' `reply` read each by itself.
#[derive(Clone, Copy, Default)]
pub struct Input {
    pub from: usize,
    pub to: usize,
    pub kept: usize,
    pub whole: bool,
    pub ended: bool,
    pub failed: bool,
}

// Nothing is read yet.
pub fn start() -> Input
    ensures { result ≡ nothing }
{
    Input::default()
}

// One step on: takes on the rest of the block up to the next newline, or reads a block where nothing is left of the one before. A last
// line with no newline is whole if any of it is kept; a line whose rest cannot be read never is. Behind the end there is no step.
pub fn next(stdin: Stdin, block: &mut [u8], line: &mut [u8], input: Input) -> Input
    ensures { Steps block.old line.old input result block.new line.new }
{
    if input.ended {
        return input;
    }
    if input.from < input.to {
        return take_on(block, line, input);
    }
    let got = read(stdin, block);
    arrived(block, line, input, got)
}

// What a read brought, taken on up to its first newline.
fn arrived(block: &[u8], line: &mut [u8], input: Input, got: Result<usize, ReadFailed>) -> Input
    ensures { Arrives block.now line.old input got result line.new }
{
    let Ok(n) = got else {
        return stopped(0, true);
    };
    if n == 0 {
        return stopped(held(line, input), false);
    }
    take_on(
        block,
        line,
        Input {
            from: 0,
            to: n,
            ended: false,
            failed: false,
            ..input
        },
    )
}

// The input ends behind so many characters of a line.
fn stopped(kept: usize, failed: bool) -> Input
    ensures { result ≡ stopped kept failed }
{
    Input {
        kept,
        whole: 0 < kept,
        ended: true,
        failed,
        ..Input::default()
    }
}

// Takes on the rest of a block up to its first newline.
fn take_on(block: &[u8], line: &mut [u8], input: Input) -> Input
    ensures { TakesOn block.now line.old input result line.new }
{
    let to = lower(input.to, block.len());
    let from = lower(input.from, to);
    let rest = &block[..to];
    let e = words::until(rest, from, b'\n');
    let h = held(line, input);
    let kept = keep(line, h, &rest[from..e]);
    if e < to {
        return Input {
            from: e + 1,
            to,
            kept,
            whole: true,
            ..input
        };
    }
    Input {
        from: to,
        to,
        kept,
        whole: false,
        ..input
    }
}

// How many characters of the line in hand are kept. Behind a whole line there is none.
fn held(line: &[u8], input: Input) -> usize
    ensures { Held line.now input result }
{
    if input.whole {
        return 0;
    }
    lower(input.kept, line.len())
}

// Puts a further part of the line in hand behind what is kept of it, as far as there is room.
fn keep(line: &mut [u8], held: usize, part: &[u8]) -> usize
    requires { held ≤ length line.old }
    ensures { Keeps held line.old part.now result line.new }
{
    let m = lower(part.len(), line.len() - held);
    pieces::append(line, held, &part[..m])
}
