// What is asked of a round trip, and what it answers and leaves, as text.
use alike::PairError;
use format::Refusal;
use std::fmt::Display;

// What is asked, and how much is lent.
pub(crate) fn asked(rt: HostRuntime, name: &str, n: usize, first: usize, second: usize) {
    say(rt, name);
    say(rt, n);
    say(rt, ", lent ");
    say(rt, first);
    say(rt, " and ");
    say(rt, second);
    say(rt, ":");
}

pub(crate) fn answer(rt: HostRuntime, a: Result<usize, Refusal>) {
    match a {
        Ok(n) => {
            say(rt, " ok ");
            say(rt, n);
            say(rt, "\n");
        }
        Err(r) => refused(rt, " refused ", r),
    }
}

pub(crate) fn compared(rt: HostRuntime, a: Result<bool, PairError>) {
    match a {
        Ok(true) => say(rt, " same\n"),
        Ok(false) => say(rt, " other\n"),
        Err(PairError::First(r)) => refused(rt, " first refused ", r),
        Err(PairError::Second(r)) => refused(rt, " second refused ", r),
    }
}

fn refused(rt: HostRuntime, text: &str, r: Refusal) {
    say(rt, text);
    say(rt, refusals::number(r.kind));
    say(rt, " ");
    say(rt, r.place);
    say(rt, "\n");
}

// What is not as it was lent, each behind its place.
pub(crate) fn changes<T: Copy + PartialEq + Display + Drop>(rt: HostRuntime, now: &[T], lent: T) {
    for (i, v) in now.iter().enumerate() {
        if *v != lent {
            say(rt, " ");
            say(rt, i);
            say(rt, "=");
            say(rt, *v);
        }
    }
    say(rt, "\n");
}

// Writes a piece by itself. One that cannot be written changes nothing that follows: whoever compares what is printed sees what it lacks.
fn say<D: Display + Drop>(rt: HostRuntime, piece: D) {
    let _ = rt.print(piece);
}
