// A telegram written as its sheet.
#![tactic(auto)]

ghost use Rattle.std.specs.Prelude.{Ok};
ghost use Rattle.format.specs.Rules.{paper};
ghost use Rattle.sheet.specs.Sheets.{Export};
ghost use Rattle.sheet.specs.Steps.{Listing, Columns, RowsPut, Wrote};

mod row;

use crate::row::put_row;
use format::{Kind, Refusal};
use pieces::append;
use sheet::SheetError;
use sheet_rows::RowLabels;

// Writes the sheet of the telegram of n bits in s into text, and answers its length. A refusal, 1 under 65,536 bytes and else the reader's,
// leaves text as it was.
pub fn export(s: &[u8], n: usize, text: &mut [u8]) -> Result<usize, SheetError>
    ensures { Export paper s.now n text.old result text.new }
{
    if text.len() < 65536 {
        return Err(Refusal::at_once(Kind::Room).into());
    }
    let mut values = [0u64; 830];
    let count = telegram::read(s, n, &mut values)?;
    Ok(sheet(&values[..count], text))
}

// Puts the sheet of a telegram with these values, and gives where it ends.
fn sheet(values: &[u64], text: &mut [u8]) -> usize
    requires { Listing values.now text.old }
    ensures { Wrote values.now text.old (Ok result) text.new }
{
    let mut fields = [0u8; 830];
    telegram::label(values, &mut fields).unwrap();
    let head = append(text, 0, b"variable,bits,value\r\n");
    rows(&fields[..values.len()], values, text, head)
}

// Puts a row for each value, with the field of the same place. The two lists stay two, since the telegram is read as its values alone.
fn rows(fields: &[u8], values: &[u64], text: &mut [u8], start: usize) -> usize
    requires { Columns fields.now values.now }
    ensures { RowsPut fields.now values.now text.old start result text.new }
{
    let labels = RowLabels::new();
    let mut at = start;
    for (&k, &v) in fields.iter().zip(values) {
        at = put_row(&labels, text, at, k as usize, v);
    }
    at
}
