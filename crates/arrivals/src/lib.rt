// The telegrams of a group in order of arrival, each checked as a telegram by itself.
#![tactic(auto)]

ghost use Rattle.std.specs.Prelude.{◌≡◌, ◌+◌, ◌-◌, ◌≤◌, length, take, drop};
ghost use Rattle.format.specs.Rules.{paper};
ghost use Rattle.states.specs.Reader.{checked, answer_of};
ghost use Rattle.group.specs.Groups.{arrived, parts};
ghost use Rattle.group.specs.Walks.{came_of, part_length};

use format::Refusal;
use seats::behind;

// The first refusal of a single telegram, with its arrival number from 0. Each has its ceil(n / 8) bytes, and the last all that are left.
pub fn arrive(s: &[u8], ns: &[usize]) -> Result<(), (usize, Refusal)>
    ensures { result ≡ came_of (arrived paper 0 (parts s.now ns.now)) }
{
    let mut start = 0;
    for (i, &n) in ns.iter().enumerate() {
        let end = ends(s.len(), start, n, i + 1 == ns.len());
        if let Err(r) = check_part(s, start, end, n) {
            return Err((i, r));
        }
        start = end;
    }
    Ok(())
}

// Where a telegram's bytes end: the last's where all do. Whether it is the last is handed on as a test, since `part_length` goes by that.
fn ends(all: usize, start: usize, n: usize, last: bool) -> usize
    requires { start ≤ all }
    ensures { result ≡ start + part_length (all - start) n last }
{
    if last { all } else { behind(all, start, n) }
}

// The check of the bytes from start to end.
fn check_part(s: &[u8], start: usize, end: usize, n: usize) -> Result<usize, Refusal>
    requires { (start ≤ end) × (end ≤ length s.now) }
    ensures { result ≡ answer_of (checked paper (take (end - start) (drop start s.now)) n) }
{
    telegram::check(&s[start..end], n)
}
