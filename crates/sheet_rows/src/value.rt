// The value of a row, read and put: a decimal number, or sixteen places. A number past the last field is taken as the end mark's.
ghost use Rattle.std.specs.Prelude.{◌≡◌, drop};
ghost use Rattle.pieces.specs.Numbers.{read_at};
ghost use Rattle.pieces.specs.Pieces.{Appended};
ghost use Rattle.sheet.specs.Reading.{value_in};
ghost use Rattle.sheet.specs.Rows.{field_of, value_text};

use parse::{decimal_at, places_at};
use spell::{append_decimal, append_places};

// NID_RADIO, whose value is written as sixteen places.
const RADIO: usize = 35;

// The value of field k that stands in a text from at on.
pub fn value_at(text: &[u8], at: usize, k: usize) -> Option<(u64, usize)>
    ensures { result ≡ read_at at (value_in (field_of k) (drop at text.now)) }
{
    if k == RADIO {
        return places_at(text, at);
    }
    decimal_at(text, at)
}

// Puts a value of field k into out from at on, and gives where it ends. One that finds no room there is not put, and ends where it was to begin.
pub fn put_value(out: &mut [u8], at: usize, k: usize, v: u64) -> usize
    ensures { Appended out.old at (value_text (field_of k) v) result out.new }
{
    if k == RADIO {
        return append_places(out, at, v);
    }
    append_decimal(out, at, v)
}
