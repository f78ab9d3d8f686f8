// Checking and reading a telegram: the machine driven by bits.
//
// A refusal changes no output, so reading checks first, and stores in a second run, which follows the rows alone.
//
// The bytes s and the number n of their bits stay two parameters: `check`, `read` and `bits::Cursor::take` take them so, and a struct of both would be
// made and taken apart at every call.
ghost use Rattle.std.specs.Prelude.{true, false, IfOk, ◌≡◌, ◌*◌, ◌≤◌, ◌<◌, length, take};
ghost use Rattle.bits.specs.Bits.{value_of, bits_of, bytes_for};
ghost use Rattle.bits.specs.Take.{field_bits};
ghost use Rattle.format.specs.Refusals.{in_numbers};
ghost use Rattle.format.specs.Rules.{paper};
ghost use Rattle.format.specs.Table.{words};
ghost use Rattle.format.specs.Telegrams as telegrams;
ghost use Rattle.states.specs.Reader.{clear, checked, answer_of, Read};
ghost use Rattle.states.specs.Filling.{Filling, Filled};
ghost use Rattle.states.proofs.Scanning.{Scans};
ghost use Rattle.counted.proofs.Copied.{Metric};
ghost use Rattle.passing.proofs.Sweeping.{Sweeps};
ghost use Rattle.telegram.specs.Finding.{counted_in};

use crate::answer::refused;
use crate::driver::{drift, ease};
use crate::earlier::repeated_in_bits;
use crate::head::leading;
use crate::machine::step;
use crate::rows::Rows;
use crate::state::begin;
use crate::swift::{Swept, sweep};
use crate::todo::advance;
use bits::Cursor;
use format::{Kind, Refusal};
use noting::closes;
use short::sized;
use states::{Easy, State, Todo};

// Whether the bytes and n are a telegram: the count of its values, or its refusal.
pub fn check(s: &[u8], n: usize) -> Result<usize, Refusal>
    ensures { in_numbers result ≡ in_numbers (answer_of (checked paper s.now n)) }
{
    Ok(find(s, n)?.count)
}

// What the check finds of a telegram: the count of its values, and whether it saw that every packet is in metres or has no scale.
#[derive(Clone, Copy)]
pub(crate) struct Found {
    pub count: usize,
    pub metric: bool,
}

// The check, by whole packets as far as they go, and field by field from there on.
pub(crate) fn find(s: &[u8], n: usize) -> Result<Found, Refusal>
    ensures answer { in_numbers (counted_in result) ≡ in_numbers (answer_of (checked paper s.now n)) }
    ensures metric { IfOk result (λ f. f.metric ≡ true → Metric s.now n) }
{
    if !sized(s, n) {
        return Err(Refusal::at_once(Kind::Size));
    }
    if !clear(s, n) {
        return Err(Refusal::at_once(Kind::Padding));
    }
    match sweep(s, n) {
        Swept::Over(found) => Ok(found),
        Swept::Stopped { at, count } => {
            let count = exact(s, n, at, count)?;
            Ok(Found {
                count,
                metric: false,
            })
        }
    }
}

// Reads a telegram into out, one value a field in order of sending, and answers their count. A refusal leaves out as it was.
pub fn read(s: &[u8], n: usize, out: &mut [u64]) -> Result<usize, Refusal>
    ensures { Read paper s.now n out.old result out.new }
{
    if out.len() < 830 {
        return Err(Refusal::at_once(Kind::Room));
    }
    let count = check(s, n)?;
    fill(s, n, out);
    Ok(count)
}

// Whether the unused low bits of the last byte are 0.
fn clear(s: &[u8], n: usize) -> bool
    requires { (0 < n) × (n ≤ 830) × (length s.now ≡ bytes_for n) }
    ensures { result ≡ clear s.now n }
{
    let unused = 8 * s.len() - n;
    s[s.len() - 1] % (1u8 << unused) == 0
}

// Goes over the fields of the first n bits of s from the bit at on, where so many fields were before: from a packet's edge, or from the header's first field.
fn exact(s: &[u8], n: usize, at: usize, before: usize) -> Result<usize, Refusal>
    requires { (12 ≤ n) × (n ≤ 830) × (n ≤ 8 * length s.now) × Sweeps s.now n at before false }
    ensures { result ≡ answer_of (telegrams.read paper (take n (bits_of s.now))) }
{
    let rows = Rows::new();
    let st = if 0 < at {
        State::fresh(at, pig(s, n))
    } else {
        begin()
    };
    walk(&rows, s, n, st, before)
}

// The N_PIG of the header.
fn pig(s: &[u8], n: usize) -> u64
    requires { (12 ≤ n) × (n ≤ 8 * length s.now) }
    ensures { result ≡ value_of (field_bits s.now 3 9) }
{
    let c = Cursor { at: 9 };
    match c.take(s, n, 3) {
        Some((v, _)) => v,
        None => 0,
    }
}

// Goes on from there, where so many fields were before, up to the first broken rule or the end mark, each field through the cursor: those that no
// rule reads are gone past, and every other is taken.
fn walk(rows: &Rows, s: &[u8], n: usize, from: State, before: usize) -> Result<usize, Refusal>
    requires { Scans s.now n words from (record { at = from.at }) before }
    ensures { result ≡ answer_of (telegrams.read paper (take n (bits_of s.now))) }
{
    let mut st = from;
    let mut count = before;
    loop {
        let g = drift(rows, n, st.todo, Cursor { at: st.at });
        st.at = g.cursor.at;
        st.todo = g.todo;
        count += g.fields;
        if let Some(after) = leading(rows, s, n, st) {
            st = after;
            count += 3;
            continue;
        }
        let Some((v, next)) = g.cursor.take(s, n, rows.width(st.todo.node)) else {
            return Err(refused(Kind::Ended, st, st.at));
        };
        match ease(rows, st.todo, v) {
            Easy::To(u) => {
                st.at = next.at;
                st.todo = u;
                count += 1;
                continue;
            }
            Easy::Ends(_) => {
                if closes(st, next.at) {
                    st = State::fresh(next.at, st.pig);
                    count += 1;
                    continue;
                }
            }
            Easy::Not => {}
        }
        match step(rows, st, v, repeated_in_bits(rows, s, st, v)) {
            Err(kind) => {
                return Err(refused(kind, st, next.at));
            }
            Ok(None) => {
                if next.at == n {
                    return Ok(count + 1);
                }
                return Err(refused(Kind::Trailing, st, next.at));
            }
            Ok(Some(after)) => {
                st = after;
                count += 1;
            }
        }
    }
}

// Stores the values of an accepted telegram.
fn fill(s: &[u8], n: usize, out: &mut [u64])
    requires { Filling s.now n out.old }
    ensures { Filled s.now n out.old out.new }
{
    let rows = Rows::new();
    let mut t = Todo::at(1);
    let mut c = Cursor { at: 0 };
    for value in out.iter_mut() {
        let Some((v, next)) = c.take(s, n, rows.width(t.node)) else {
            return;
        };
        *value = v;
        let Some(u) = advance(&rows, t, v) else {
            return;
        };
        t = u;
        c = next;
    }
}
