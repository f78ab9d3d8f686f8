// What is printed for an input that was read until a buffer was full or the input ended, put into a text.
ghost use Rattle.std.specs.Prelude.{List, ℕ, ◌≤◌, length};
ghost use Rattle.pieces.specs.Pieces.{Grown};
ghost use Rattle.printed.specs.Printed.{out_text, TellsLine};
ghost use Rattle.printed_in.specs.Sheet.{in_text, TellsSheet};
ghost use Rattle.sheets.specs.Input.{Holds};

// Of an input of which the first n bytes of the buffer are the whole, or as much as tells what is printed for its line.
pub(crate) fn from_start_of_line(read: &[u8], n: usize, out: &mut [u8]) -> usize
    requires { TellsLine (length read.now) × (n ≤ length read.now) × (65536 ≤ length out.old) }
    ensures { (input : List ℕ) → Holds read.now n input → Grown out.old (out_text input) result out.new }
{
    printed::from_line(&read[..n], out)
}

// The same of a sheet. The two call different functions and promise different texts: one function for both would take a trait to say so.
pub(crate) fn from_start_of_sheet(read: &[u8], n: usize, out: &mut [u8]) -> usize
    requires { TellsSheet (length read.now) × (n ≤ length read.now) × (1024 ≤ length out.old) }
    ensures { (input : List ℕ) → Holds read.now n input → Grown out.old (in_text input) result out.new }
{
    printed_in::from_sheet(&read[..n], out)
}
