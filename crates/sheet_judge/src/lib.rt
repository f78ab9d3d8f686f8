// The rows of a sheet, once they are read, judged as a telegram: the writer on the value column, then the names.
#![tactic(auto)]

ghost use Rattle.std.specs.Prelude.{◌≡◌, ◌==◌, not, position, zip};
ghost use Rattle.sheet.specs.Steps.{Judged, Other};

use format::{Kind, Refusal};
use sheet::SheetError;

// Writes the telegram with these values into `out`, and answers its n. A refusal leaves `out` as it was: 1 under 104 bytes; the writer's; at
// the first row, counted from 1, whose field has another number than the one due there.
pub fn judge(fields: &[u8], values: &[u64], out: &mut [u8]) -> Result<usize, SheetError>
    ensures { Judged fields.now values.now out.old result out.new }
{
    if out.len() < 104 {
        return Err(Refusal::at_once(Kind::Room).into());
    }
    let mut due = [0u8; 830];
    let n = telegram::label(values, &mut due)?;
    if let Some(k) = other_name(fields, &due[..values.len()]) {
        return Err(SheetError::Row(k));
    }
    telegram::write(values, out).unwrap();
    Ok(n)
}

// The first row, counted from 1, whose field is not the one due there.
fn other_name(fields: &[u8], due: &[u8]) -> Option<usize>
    ensures { Other fields.now due.now result }
{
    let i = unlike(fields, due)?;
    Some(i + 1)
}

fn unlike(fields: &[u8], due: &[u8]) -> Option<usize>
    ensures { result ≡ position (λ p. not (p.0 == p.1)) (zip fields.now due.now) }
{
    fields
        .iter()
        .zip(due)
        .position(|(field, wanted)| field != wanted)
}
