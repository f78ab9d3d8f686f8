// Pieces of text, compared and put, and the answer of what reads a number in it. Every function answers every input.
#![tactic(auto)]

ghost use Rattle.std.specs.Prelude.{◌≡◌, drop};
ghost use Rattle.pieces.specs.Pieces.{begins, Appended};

// Whether the text goes on with a piece from at on. Most pieces that are asked for differ from the text in their first characters, so each is compared by
// itself: `starts_with` is a call, and `sheet_in::import` takes 2.5 times as long by it.
pub fn begins(text: &[u8], at: usize, piece: &[u8]) -> bool
    ensures { result ≡ begins piece.now (drop at text.now) }
{
    let mut j = at;
    for c in piece {
        if text.len() <= j {
            return false;
        }
        if *c != text[j] {
            return false;
        }
        j += 1;
    }
    true
}

// Puts a piece into out from at on, and gives where it ends. A piece that finds no room there is not put, and ends where it was to begin.
pub fn append(out: &mut [u8], at: usize, piece: &[u8]) -> usize
    ensures { Appended out.old at piece.now result out.new }
{
    if out.len() < at {
        return at;
    }
    if out.len() - at < piece.len() {
        return at;
    }
    let end = at + piece.len();
    out[at..end].copy_from_slice(piece);
    end
}
