// Bytes copied over the front of others, eight at a time.
#![tactic(auto)]

ghost use Rattle.std.specs.Prelude.{◌++◌, ◌≡◌, ◌+◌, ◌≤◌, ◌<◌, length, take, drop};
ghost use Rattle.copying.specs.Copies.{copied_to};

// Copies s to the front of out, where that has room for it; else out stays as it was. The last eight bytes are copied together, even if the ones before
// them were copied already.
//
// By index, and not by `copy_from_slice`: that is a call of C's `memmove`, which the archive for C would ask for, and by which the normal form of the
// empty telegram takes longer than it may.
pub fn copy(s: &[u8], out: &mut [u8])
    ensures { out.new ≡ copied_to s.now out.old }
{
    if out.len() < s.len() {
        return;
    }
    if s.len() < 8 {
        few(s, out);
        return;
    }
    let last = s.len() - 8;
    let mut i = 0;
    while i < last {
        eight(s, i, out);
        i += 8;
    }
    eight(s, last, out);
}

// The same byte by byte.
fn few(s: &[u8], out: &mut [u8])
    requires { length s.now ≤ length out.old }
    ensures { out.new ≡ s.now ++ drop (length s.now) out.old }
{
    let mut i = 0;
    while i < s.len() {
        out[i] = s[i];
        i += 1;
    }
}

// Copies the eight bytes of s from k on to the same place of out. All are read before one is written: the compiler makes one load and one store of them.
fn eight(s: &[u8], k: usize, out: &mut [u8])
    requires { (k + 8 ≤ length s.now) × (length s.now ≤ length out.old) }
    ensures { out.new ≡ take k out.old ++ (take 8 (drop k s.now) ++ drop (k + 8) out.old) }
{
    let a = s[k];
    let b = s[k + 1];
    let c = s[k + 2];
    let d = s[k + 3];
    let e = s[k + 4];
    let f = s[k + 5];
    let g = s[k + 6];
    let h = s[k + 7];
    out[k] = a;
    out[k + 1] = b;
    out[k + 2] = c;
    out[k + 3] = d;
    out[k + 4] = e;
    out[k + 5] = f;
    out[k + 6] = g;
    out[k + 7] = h;
}
