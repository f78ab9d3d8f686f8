// One row of a sheet, put.
ghost use Rattle.std.specs.Prelude.{◌<◌};
ghost use Rattle.sheet.specs.Steps.{RowPut};

use pieces::append;
use sheet_rows::{RowLabels, put_value};

// Puts the row of field k with a value into out from at on, and gives where it ends.
pub(crate) fn put_row(labels: &RowLabels, out: &mut [u8], at: usize, k: usize, v: u64) -> usize
    requires { k < 72 }
    ensures { RowPut k v out.old at result out.new }
{
    let label = append(out, at, labels.label(k));
    let value = put_value(out, label, k, v);
    append(out, value, b"\r\n")
}
