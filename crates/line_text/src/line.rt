// Bits as the characters of a line.
ghost use Rattle.std.specs.Prelude.{◌*◌, ◌≤◌, length, take};
ghost use Rattle.bits.specs.Bits.{bits_of};
ghost use Rattle.pieces.specs.Pieces.{Grown};
ghost use Rattle.line_text.specs.Characters.{characters_into};
ghost use Rattle.packing.specs.Packing.{characters};

// Puts the first n bits of s into the front of out, a character for each, and gives where they end. Where s has fewer bits or out less room,
// nothing is put, and they end at 0.
pub fn characters(s: &[u8], n: usize, out: &mut [u8]) -> usize
    ensures { Grown out.old (characters_into s.now n (length out.old)) result out.new }
{
    if s.len() < bits::bytes_for(n) {
        return 0;
    }
    if out.len() < n {
        return 0;
    }
    put_characters(s, n, out)
}

fn put_characters(s: &[u8], n: usize, out: &mut [u8]) -> usize
    requires { (n ≤ 8 * length s.now) × (n ≤ length out.old) }
    ensures { Grown out.old (characters (take n (bits_of s.now))) result out.new }
{
    for i in 0..n {
        out[i] = packing::character(s, n, i);
    }
    n
}
