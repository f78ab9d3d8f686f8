// Writing a telegram: the machine driven by values.
//
// A refusal changes no output, so writing measures first, and stores in a second run, which follows the rows alone.
ghost use Rattle.std.specs.Prelude.{◌≡◌};
ghost use Rattle.format.specs.Rules.{paper};
ghost use Rattle.format.specs.Telegrams as telegrams;
ghost use Rattle.states.specs.Writer.{size_of, Write, Storing, Stored};

use crate::answer::refused;
use crate::earlier::repeated_in_values;
use crate::machine::step;
use crate::rows::Rows;
use crate::state::begin;
use crate::todo::advance;
use format::{Kind, Refusal};
use short::fitting;
use states::Todo;

// Writes the telegram with these values into out, and answers its n. A refusal leaves out as it was.
pub fn write(values: &[u64], out: &mut [u8]) -> Result<usize, Refusal>
    ensures { Write paper values.now out.old result out.new }
{
    if out.len() < 104 {
        return Err(Refusal::at_once(Kind::Room));
    }
    let n = measure(values)?;
    store(values, n, out);
    Ok(n)
}

// Goes over the values, each for the field that is due, up to the first broken rule or the end mark.
pub(crate) fn measure(values: &[u64]) -> Result<usize, Refusal>
    ensures { result ≡ size_of (telegrams.write paper values.now) }
{
    let rows = Rows::new();
    let mut st = begin();
    for (i, &v) in values.iter().enumerate() {
        let w = rows.width(st.todo.node);
        let end = st.at + w;
        if let Err(kind) = fitting(v, w, end) {
            return Err(refused(kind, st, end));
        }
        match step(&rows, st, v, repeated_in_values(&rows, values, i, st, v)) {
            Err(kind) => {
                return Err(refused(kind, st, end));
            }
            Ok(None) => {
                if i + 1 == values.len() {
                    return Ok(end);
                }
                return Err(refused(Kind::Trailing, st, end));
            }
            Ok(Some(after)) => {
                st = after;
            }
        }
    }
    Err(refused(Kind::Ended, st, st.at))
}

// Stores the n bits of a telegram with these values. The last byte is cleared first, so that its unused low bits are 0.
fn store(values: &[u64], n: usize, out: &mut [u8])
    requires { Storing values.now n out.old }
    ensures { Stored values.now out.old out.new }
{
    let rows = Rows::new();
    let last = (n - 1) / 8;
    out[last] = 0;
    let mut t = Todo::at(1);
    let mut at: usize = 0;
    for &v in values {
        let w = rows.width(t.node);
        store::put(out, at, w, v);
        let Some(u) = advance(&rows, t, v) else {
            return;
        };
        t = u;
        at += w;
    }
}
