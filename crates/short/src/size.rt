// How long a telegram may be, and how large a value.
ghost use Rattle.std.specs.Prelude.{◌≡◌};
ghost use Rattle.states.specs.Reader.{sized};
ghost use Rattle.states.specs.Writer.{fitting};

use format::Kind;

// Whether n is the length of a telegram, and s has the bytes for it and no more.
pub fn sized(s: &[u8], n: usize) -> bool
    ensures { result ≡ sized s.now n }
{
    if n < 58 {
        return false;
    }
    if 830 < n {
        return false;
    }
    s.len() == bits::bytes_for(n)
}

// Whether v fits a field of w bits and that field, which ends at the bit end, the telegram. A value that is too wide is told first.
pub fn fitting(v: u64, w: usize, end: usize) -> Result<(), Kind>
    ensures { result ≡ fitting v w end }
{
    if !bits::fits(v, w) {
        return Err(Kind::Wide);
    }
    if 830 < end {
        return Err(Kind::Full);
    }
    Ok(())
}
