// Which field each value of a telegram's list is: the writer without its bytes.
//
// A refusal changes no output, so the list is measured first, and labelled in a second run, which follows the rows alone.
ghost use Rattle.std.specs.Prelude.{◌≡◌, ◌<◌};
ghost use Rattle.format.specs.Rules.{paper};
ghost use Rattle.format.specs.Table.{field_numbers};
ghost use Rattle.states.specs.Labels.{Label, Labelling, Labelled, number_at};

use crate::rows::Rows;
use crate::todo::advance;
use crate::writer::measure;
use format::{Kind, Refusal};
use states::Todo;

// Which field each value of a telegram's list is, by number, in order of sending; the end mark is 71. `names::append_name` gives the name for a number.
// A refusal is the writer's, or 1 under 830 bytes, and leaves fields as it was. Answers n.
pub fn label(values: &[u64], fields: &mut [u8]) -> Result<usize, Refusal>
    ensures { Label paper values.now fields.old result fields.new }
{
    if fields.len() < 830 {
        return Err(Refusal::at_once(Kind::Room));
    }
    let n = measure(values)?;
    name(values, fields);
    Ok(n)
}

// Stores the number of each value's field, for the values of a telegram.
fn name(values: &[u64], fields: &mut [u8])
    requires { Labelling values.now fields.old }
    ensures { Labelled values.now fields.old fields.new }
{
    let rows = Rows::new();
    let numbers = table::fields();
    let mut t = Todo::at(1);
    for (i, &v) in values.iter().enumerate() {
        fields[i] = number(&rows, &numbers, t.node, v);
        let Some(u) = advance(&rows, t, v) else {
            return;
        };
        t = u;
    }
}

// The number of the field that is due in row k and holds v.
fn number(rows: &Rows, numbers: &[u8; 213], k: usize, v: u64) -> u8
    requires { (k < 213) × (numbers.now ≡ field_numbers) }
    ensures { result ≡ number_at k v }
{
    table::named(rows.act(k), v, numbers[k])
}
