// The machine that follows docs/RULES.md field by field. `step` is the definition `step` of the crate format; what a state stands for there
// is said in specs/Machine.antt of the crate states.
ghost use Rattle.states.specs.Machine.{Sound, Settled, Stepping, Entered, Stepped};

use crate::rows::Rows;
use crate::todo::advance;
use crate::verdict::judge;
use format::Kind;
use noting::{closes, noted};
use states::State;
use states::codes::END;

// ---- one field

// After a packet's last field its length is tested, and the next packet or the end mark is due.
fn settled(rows: &Rows, s: State) -> Result<Option<State>, Kind>
    requires { Sound s }
    ensures { Settled s result }
{
    if rows.act(s.todo.node) != END {
        return Ok(Some(s));
    }
    if !closes(s, s.at) {
        return Err(Kind::Length);
    }
    Ok(Some(State::fresh(s.at, s.pig)))
}

// What follows a value that keeps its rule.
fn entered(rows: &Rows, s: State, v: u64) -> Result<Option<State>, Kind>
    requires { Stepping s v }
    ensures { Entered s v result }
{
    let k = s.todo.node;
    let Some(todo) = advance(rows, s.todo, v) else {
        return Ok(None);
    };
    let n = noted(s, rows.code(k), v);
    let at = n.at + rows.width(k);
    settled(rows, State { at, todo, ..n })
}

// The field that is due holds v: the rule that this breaks, or where the telegram then stands.
pub(crate) fn step(rows: &Rows, s: State, v: u64, twice: bool) -> Result<Option<State>, Kind>
    requires { Stepping s v }
    ensures { Stepped s v twice result }
{
    judge(rows, s, v, twice)?;
    entered(rows, s, v)
}
