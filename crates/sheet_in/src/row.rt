// One row of a sheet, read.
ghost use Rattle.std.specs.Prelude.{◌≡◌, drop};
ghost use Rattle.sheet.specs.Reading.{row_in};
ghost use Rattle.sheet.specs.Steps.{row_at, Labelled};

use pieces::begins;
use sheet_rows::{RowLabels, value_at};

// The row that stands in a text from at on: its field by number, its value, and where it ends.
pub(crate) fn row_at(labels: &RowLabels, text: &[u8], at: usize) -> Option<(usize, u64, usize)>
    ensures { result ≡ row_at at (row_in (drop at text.now)) }
{
    let k = field_at(labels, text, at)?;
    let (v, end) = value_at(text, at + labels.label(k).len(), k)?;
    if !begins(text, end, b"\r\n") {
        return None;
    }
    Some((k, v, end + 2))
}

// The number of the field whose label stands there.
fn field_at(labels: &RowLabels, text: &[u8], at: usize) -> Option<usize>
    ensures { Labelled (drop at text.now) result }
{
    for k in 0..72 {
        if begins(text, at, labels.label(k)) {
            return Some(k);
        }
    }
    None
}
