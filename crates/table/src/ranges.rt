// The ends of a field's range, by the rest of its row.
ghost use Rattle.std.specs.Prelude.{◌≡◌};
ghost use Rattle.format.specs.Table.{low_by, high_by};

// The ends of the range of the field in a row whose rest is r; both 0 of a field with no range, and no Option, since `low_by` and `high_by` are 0 there.
pub fn low(r: u32) -> u64
    ensures { result ≡ low_by r }
{
    match r {
        48..52 => 1,
        62 => 16,
        _ => 0,
    }
}

pub fn high(r: u32) -> u64
    ensures { result ≡ high_by r }
{
    match r {
        10..52 => (r % 16) as u64,
        62 => 16,
        _ => 0,
    }
}
