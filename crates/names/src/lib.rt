// The name of a field by its number, for the numbers that `telegram::label` hands out.
#![tactic(auto)]

ghost use Rattle.std.specs.Prelude.{◌≡◌, ◌≤◌, length};
ghost use Rattle.names.specs.Names.{name_text, name_end};
ghost use Rattle.pieces.specs.Pieces.{Appended};

use pieces::append;
use sheet_rows::RowLabels;

// Puts the name of the field with this number into out from at on, and gives where it ends. The longest has 18 letters. A name that finds no room there
// is not put, and ends where it was to begin; so does that of a number above 71, which no field has.
pub fn append_name(out: &mut [u8], at: usize, number: u8) -> usize
    ensures { Appended out.old at (name_text number) result out.new }
{
    if 71 < number {
        return at;
    }
    let labels = RowLabels::new();
    let label = labels.label(number as usize);
    append(out, at, &label[..name_end(label)])
}

// Where the name ends in a label: a width of one digit or two stands behind it, between commas.
fn name_end(label: &[u8]) -> usize
    requires { 4 ≤ length label.now }
    ensures { result ≡ name_end label.now (length label.now) }
{
    let e = label.len();
    if label[e - 3] == b',' {
        return e - 3;
    }
    e - 4
}
