// What the program `sheets` prints for a line, put into a text; for a sheet it is `printed_in`. Every input and every room has its answer.
#![tactic(auto)]

ghost use Rattle.std.specs.Prelude.{◌≡◌, ◌≤◌, length};
ghost use Rattle.pieces.specs.Pieces.{Grown};
ghost use Rattle.sheet.specs.Sheets.{length_of, sheet_over};
ghost use Rattle.printed.specs.Printed.{told, out_into, TellsLine};

use format::{Kind, Refusal};
use line_text::{line_length, refuse};
use sheet::SheetError;

// No telegram has more than 830 bits. An input of 832 bytes or more has at least 831 characters before a newline at its end and is
// refused for that, whatever they are.
const LINE: usize = 832;

// A buffer for as much of an input as tells what is printed for its line.
pub fn line_buffer() -> [u8; LINE]
    ensures { TellsLine (length result) }
{
    [0; LINE]
}

// Puts the sheet of the telegram that the input's line writes, or what refuses it, into out, and gives where it ends. Under 65,536 bytes
// nothing is put, and it ends at 0.
pub fn from_line(input: &[u8], out: &mut [u8]) -> usize
    ensures { Grown out.old (out_into input.now (length out.old)) result out.new }
{
    if out.len() < 65536 {
        return 0;
    }
    let n = line_length(input);
    let reply = exported(&input[..n], out);
    match reply {
        Ok(end) => end,
        Err(_) => refuse(reply, out),
    }
}

// A line with another character is refused as one of a wrong length is.
fn exported(line: &[u8], out: &mut [u8]) -> Result<usize, SheetError>
    requires { 65536 ≤ length out.old }
    ensures { (result ≡ length_of (told line.now)) × (out.new ≡ sheet_over (told line.now) out.old) }
{
    let mut s = [0u8; 104];
    let Ok(n) = packing::pack(line, &mut s) else {
        return Err(Refusal::at_once(Kind::Size).into());
    };
    sheet_out::export(&s[..bits::bytes_for(n)], n, out)
}
