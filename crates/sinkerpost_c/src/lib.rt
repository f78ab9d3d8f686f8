// Checking and normalising for C: the library `sinkerpost` as a static library, each export with the promise of the function that it calls.
#![tactic(auto)]

ghost use Rattle.std.specs.Prelude.{◌≡◌};
ghost use Rattle.format.specs.Rules.{paper};
ghost use Rattle.sinkerpost.specs.Codes.{check_code, Normalise};

// Whether the bytes and n are a telegram: 0, or its refusal.
#[unsafe(no_mangle)]
pub extern "C" fn sinkerpost_check(bytes: &[u8], n: u64) -> u64
    ensures { result ≡ check_code paper bytes.now n }
{
    sinkerpost::sinkerpost_check(bytes, n)
}

// Writes the normal form of a telegram into out: 0, or its refusal, which leaves out as it was.
#[unsafe(no_mangle)]
pub extern "C" fn sinkerpost_normalise(bytes: &[u8], n: u64, out: &mut [u8]) -> u64
    ensures { Normalise paper bytes.now n out.old result out.new }
{
    sinkerpost::sinkerpost_normalise(bytes, n, out)
}
