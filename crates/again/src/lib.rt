// Demand 2, by the promises of `telegram` alone: what is read and written again is the same telegram; what is written and read again
// is the same list of values. Demand 3 is in `normals` and `alike`.
#![tactic(auto)]

ghost use Rattle.format.specs.Rules.{paper};
ghost use Rattle.again.specs.Again.{Rewritten, Reread};

use format::{Kind, Refusal};

// Reads the telegram s of n bits into run, and writes what was read into out: n, and s again. A refusal leaves both as they were: the room in out
// is tested before anything is stored, and what was read is never refused by the writer.
pub fn rewritten(s: &[u8], n: usize, run: &mut [u64], out: &mut [u8]) -> Result<usize, Refusal>
    ensures { Rewritten paper s.now n run.old out.old result run.new out.new }
{
    if out.len() < 104 {
        return Err(Refusal::at_once(Kind::Room));
    }
    let a = telegram::read(s, n, run);
    let Ok(count) = a else {
        return a;
    };
    telegram::write(&run[..count], out)
}

// Writes the telegram with these values into out, and reads what was written into run: the count of the values, and the values again. A refusal
// leaves both as they were: the room in run is tested before anything is stored, and what was written is never refused by the reader.
pub fn reread(values: &[u64], out: &mut [u8], run: &mut [u64]) -> Result<usize, Refusal>
    ensures { Reread paper values.now out.old run.old result out.new run.new }
{
    if run.len() < 830 {
        return Err(Refusal::at_once(Kind::Room));
    }
    let a = telegram::write(values, out);
    let Ok(n) = a else {
        return a;
    };
    telegram::read(&out[..bits::bytes_for(n)], n, run)
}
