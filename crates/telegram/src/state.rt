// Where a telegram stands before its next field.
ghost use Rattle.states.specs.Machine.{Beginning};

use states::{Level, State, Todo};

// Before the first field.
pub(crate) fn begin() -> State
    ensures { Beginning result }
{
    State {
        todo: Todo::at(1),
        level: Level::Header,
        ..State::fresh(0, 0)
    }
}
