// A sheet taken as a telegram: the rows, then the writer on the value column, then the names.
#![tactic(auto)]

ghost use Rattle.std.specs.Prelude.{◌≡◌, true};
ghost use Rattle.format.specs.Rules.{paper};
ghost use Rattle.pieces.specs.Pieces.{begins};
ghost use Rattle.sheet.specs.Rows.{heading};
ghost use Rattle.sheet.specs.Sheets.{Import};
ghost use Rattle.sheet.specs.Steps.{Collecting, Collected};

mod row;

use crate::row::row_at;
use format::{Kind, Refusal};
use pieces::begins;
use sheet::SheetError;
use sheet_judge::judge;
use sheet_rows::RowLabels;

// Writes the telegram whose sheet the text is into `out`, and answers its n. A refusal leaves `out` as it was: 1 under 104 bytes; at the first
// that is no row; the writer's on the value column; at the first row whose name is not the one due there.
pub fn import(text: &[u8], out: &mut [u8]) -> Result<usize, SheetError>
    ensures { Import paper text.now out.old result out.new }
{
    if out.len() < 104 {
        return Err(Refusal::at_once(Kind::Room).into());
    }
    let mut fields = [0u8; 830];
    let mut values = [0u64; 830];
    let n = headed(text, &mut fields, &mut values).map_err(SheetError::Row)?;
    judge(&fields[..n], &values[..n], out)
}

// The rows of a sheet, which begins with the heading: the number of each row's field, and its value.
fn headed(text: &[u8], fields: &mut [u8], values: &mut [u64]) -> Result<usize, usize>
    requires { Collecting fields.old values.old }
    ensures { Collected text.now result fields.new values.new }
{
    if !begins(text, 0, b"variable,bits,value\r\n") {
        return Err(0);
    }
    collect(&RowLabels::new(), text, fields, values)
}

// Reads the rows behind the heading. The fields and the values are two lists, since the writer takes the values as a slice of its own; n is counted beside
// the place in the text, since a refusal tells it.
fn collect(
    labels: &RowLabels,
    text: &[u8],
    fields: &mut [u8],
    values: &mut [u64],
) -> Result<usize, usize>
    requires { Collecting fields.old values.old × (begins heading text.now ≡ true) }
    ensures { Collected text.now result fields.new values.new }
{
    let mut at: usize = 21;
    let mut n: usize = 0;
    while at < text.len() {
        if n == 830 {
            return Err(831);
        }
        let Some((k, v, end)) = row_at(labels, text, at) else {
            return Err(n + 1);
        };
        fields[n] = k as u8;
        values[n] = v;
        at = end;
        n += 1;
    }
    Ok(n)
}
