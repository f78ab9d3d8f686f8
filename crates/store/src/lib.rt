// A field of bits written into bytes, the highest bit of byte 0 first: over its part of a window of four bytes where one holds the field, and
// else a byte at a time.
#![tactic(auto)]

ghost use Rattle.std.specs.Prelude.{◌≡◌, ◌/◌, ◌%◌, ◌^◌, ◌+◌, ◌*◌, ◌≤◌, ◌<◌, length};
ghost use Rattle.bits.specs.Bits.{bits_of};
ghost use Rattle.bits.specs.Put.{over, laid_at, Put};

use word64::{fits, low_bits, lower, wide, window};

// Writes value as the field of width bits that begins at the bit at, leaves every other bit as it was, and answers true. Where
// the width is above 64, the value does not fit it or the field would end past the last byte: writes nothing, answers false.
pub fn put(out: &mut [u8], at: usize, width: usize, value: u64) -> bool
    ensures { Put out.old at width value result out.new }
{
    if 64 < width {
        return false;
    }
    if out.len() < at / 8 + (at % 8 + width + 7) / 8 {
        return false;
    }
    if !fits(value, width) {
        return false;
    }
    if wide(out.len(), width) {
        put_bytes(out, at, width, value);
    } else {
        put_window(out, at, width, value);
    }
    true
}

// The same, with no answer and of short fields alone: of more than 25 bits, and in fewer than four bytes, nothing is written.
pub fn lay(out: &mut [u8], at: usize, width: usize, value: u64)
    ensures { out.new ≡ laid_at out.old at width value }
{
    if 25 < width {
        return;
    }
    if out.len() < 4 {
        return;
    }
    let k = lower(at / 8, out.len() - 4);
    let o = at - 8 * k;
    if 32 - width < o {
        return;
    }
    if !fits(value, width) {
        return;
    }
    let low = 32 - width - o;
    let w = window(out[k], out[k + 1], out[k + 2], out[k + 3]);
    store(out, k, exchange(w, value, width, low));
}

// Writes value as the field of width bits at the bit at, its part in each byte by itself.
fn put_bytes(out: &mut [u8], at: usize, width: usize, value: u64)
    requires { (width ≤ 64) × (at + width ≤ 8 * length out.old) }
    ensures { bits_of out.new ≡ over (bits_of out.old) at width value }
{
    let first = at / 8;
    let off = at % 8;
    let mut done = 0;
    while done < width {
        let k = off + done;
        let q = first + k / 8;
        let t = lower(width - done, 8 - k % 8);
        let rest = width - done - t;
        out[q] = splice(out[q] as u64, low_bits(value >> rest, t), t, 8 - k % 8 - t) as u8;
        done += t;
    }
}

// The same, over its part of the window around the field.
fn put_window(out: &mut [u8], at: usize, width: usize, value: u64)
    requires { (width ≤ 25) × (4 ≤ length out.old) × (at + width ≤ 8 * length out.old) × (value < 2 ^ width) }
    ensures { bits_of out.new ≡ over (bits_of out.old) at width value }
{
    let k = lower(at / 8, out.len() - 4);
    let low = 32 - (at - 8 * k) - width;
    let w = window(out[k], out[k + 1], out[k + 2], out[k + 3]);
    store(out, k, splice(w, value, width, low));
}

// Writes the 32 low bits of w as the four bytes of out from k on.
fn store(out: &mut [u8], k: usize, w: u64)
    requires { k + 4 ≤ length out.old }
    ensures { bits_of out.new ≡ over (bits_of out.old) (8 * k) 32 w }
{
    let bytes = (low_bits(w, 32) as u32).to_be_bytes();
    out[k..k + 4].copy_from_slice(&bytes);
}

// The number w with x over its t bits that stand low bits above its lowest.
fn splice(w: u64, x: u64, t: usize, low: usize) -> u64
    requires { (t + low < 64) × (x < 2 ^ t) }
    ensures { result ≡ (w / 2 ^ (t + low) * 2 ^ t + x) * 2 ^ low + w % 2 ^ low }
{
    let top = w >> (t + low) << t | x;
    top << low | w & ((1u64 << low) - 1)
}

// The same of a number of 32 bits, by a difference and a sum.
fn exchange(w: u64, x: u64, t: usize, low: usize) -> u64
    requires { (w < 2 ^ 32) × (t + low ≤ 32) × (x < 2 ^ t) }
    ensures { result ≡ (w / 2 ^ (t + low) * 2 ^ t + x) * 2 ^ low + w % 2 ^ low }
{
    let old = low_bits(w >> low, t);
    w - (old << low) + (x << low)
}
