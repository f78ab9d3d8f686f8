// Checking and normalising for C: byte buffers, a bit count, and one number as the answer.
#![tactic(auto)]

ghost use Rattle.std.specs.Prelude.{◌≡◌};
ghost use Rattle.format.specs.Rules.{paper};
ghost use Rattle.format.specs.Refusals.{code_of};
ghost use Rattle.sinkerpost.specs.Codes.{check_code, Normalise, Placed};

use format::Refusal;

// Whether the bytes and n are a telegram: 0, or its refusal.
pub fn sinkerpost_check(bytes: &[u8], n: u64) -> u64
    ensures { result ≡ check_code paper bytes.now n }
{
    code(telegram::check(bytes, n as usize))
}

// Writes the normal form of a telegram into out: 0, or its refusal, which leaves out as it was.
pub fn sinkerpost_normalise(bytes: &[u8], n: u64, out: &mut [u8]) -> u64
    ensures { Normalise paper bytes.now n out.old result out.new }
{
    code(telegram::normalise(bytes, n as usize, out))
}

// 0, or 1,024 times the refusal number plus the place: one number, as the C interface has it.
fn code(a: Result<usize, Refusal>) -> u64
    requires { Placed a }
    ensures { result ≡ code_of a }
{
    match a {
        Ok(_) => 0,
        Err(r) => 1024 * refusals::number(r.kind) + r.place as u64,
    }
}
