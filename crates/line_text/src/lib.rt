// Lines that programs read and print: how much of an input is its line, and the lines of a refusal and of a bit string. Every input and every room
// has its answer.
#![tactic(auto)]

ghost use Rattle.std.specs.Prelude.{◌≡◌, length};
ghost use Rattle.pieces.specs.Pieces.{Grown};
ghost use Rattle.line_text.specs.Lines.{line_length, refusal_into};

mod line;

pub use line::characters;
use pieces::append;
use sheet::SheetError;
use spell::append_decimal;

// How many characters the input has before a newline at its end.
pub fn line_length(input: &[u8]) -> usize
    ensures { result ≡ line_length input.now }
{
    match input {
        [line @ .., b'\n'] => line.len(),
        line => line.len(),
    }
}

// Puts `refused`, the number and the place or row into out, and gives where the line ends. Under 64 bytes nothing is put, and it ends at 0. Not by `write!`,
// which promises nothing of the text that `refusal_into` is.
pub fn refuse(reply: Result<usize, SheetError>, out: &mut [u8]) -> usize
    ensures { Grown out.old (refusal_into reply (length out.old)) result out.new }
{
    if out.len() < 64 {
        return 0;
    }
    let word = append(out, 0, b"refused ");
    let number = append_decimal(out, word, sheet::number(reply));
    let space = append(out, number, b" ");
    let place = append_decimal(out, space, sheet::value(reply) as u64);
    append(out, place, b"\n")
}
