// What the program `sheets` prints for a sheet, put into a text. Every input and every room has its answer.
#![tactic(auto)]

ghost use Rattle.std.specs.Prelude.{length};
ghost use Rattle.pieces.specs.Pieces.{Grown};
ghost use Rattle.printed_in.specs.Sheet.{in_into};

use line_text::{characters, refuse};
use pieces::append;
use sheet::SheetError;

// Puts the line of the telegram whose sheet the input is, or what refuses it, into out, and gives where it ends. Under 1,024 bytes nothing is
// put, and it ends at 0.
pub fn from_sheet(input: &[u8], out: &mut [u8]) -> usize
    ensures { Grown out.old (in_into input.now (length out.old)) result out.new }
{
    if out.len() < 1024 {
        return 0;
    }
    let mut s = [0u8; 104];
    let reply = sheet_in::import(input, &mut s);
    match reply {
        Ok(n) => {
            let end = characters(&s, n, out);
            append(out, end, b"\n")
        }
        Err(_) => refuse(reply, out),
    }
}
