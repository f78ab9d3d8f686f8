// Numbers put as text: decimal, and as sixteen places of four bits. Every public function answers every input.
#![tactic(auto)]

ghost use Rattle.std.specs.Prelude.{◌≡◌, ◌≤◌, length, drop};
ghost use Rattle.pieces.specs.Numbers.{decimal, letter, sixteen};
ghost use Rattle.pieces.specs.Pieces.{Appended};

use pieces::append;

// Puts the decimal digits of v, none of them a needless zero.
pub fn append_decimal(out: &mut [u8], at: usize, v: u64) -> usize
    ensures { Appended out.old at (decimal v) result out.new }
{
    let mut d = [0u8; 20];
    let first = digits(v, &mut d);
    append(out, at, &d[first..])
}

// Puts the digits of v at the end of d, and gives where they begin.
fn digits(v: u64, d: &mut [u8]) -> usize
    requires { length d.old ≡ 20 }
    ensures { (result ≤ 20) × (length d.new ≡ 20) × (drop result d.new ≡ decimal v) }
{
    let mut n = v;
    let mut i: usize = 20;
    while 10 <= n {
        i -= 1;
        d[i] = b'0' + (n % 10) as u8;
        n /= 10;
    }
    d[i - 1] = b'0' + n as u8;
    i - 1
}

// Puts v as sixteen characters 0-9 and F, one for each place of four bits.
pub fn append_places(out: &mut [u8], at: usize, v: u64) -> usize
    ensures { Appended out.old at (sixteen v) result out.new }
{
    let mut d = [0u8; 16];
    places(v, &mut d);
    append(out, at, &d)
}

fn places(v: u64, d: &mut [u8])
    requires { length d.old ≡ 16 }
    ensures { d.new ≡ sixteen v }
{
    let mut n = v;
    for i in (0..16).rev() {
        d[i] = letter(n % 16);
        n /= 16;
    }
}

fn letter(d: u64) -> u8
    ensures { result ≡ letter d }
{
    match d {
        0..=9 => b'0' + d as u8,
        _ => b'F',
    }
}
