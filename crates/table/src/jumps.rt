// Where rows lead: as far ahead as a field that steers says, and as far back as a group's end.
ghost use Rattle.std.specs.Prelude.{◌≡◌};
ghost use Rattle.format.specs.Table.{leap_by, back_by};

// How many rows ahead the field in a row whose act is a and whose rest is r leads, where it steers and is not followed by the next row. The field that is
// left out unless its switch is 1 is one row, so that the rest of its switch is free for the rule of the switch.
pub fn leap(a: u32, r: u32) -> usize
    ensures { result ≡ leap_by a r }
{
    if a == 3 { 2 } else { r as usize }
}

// The row that repeats the group which ends with row k, whose rest is r: so many rows back, counted from the next. At a packet's end the rest is 0, and so
// is this: no Option, since `back_by`, of which `back_is` speaks, is 0 there.
pub fn back(k: usize, r: u32) -> usize
    ensures { result ≡ back_by k r }
{
    let d = r as usize;
    if d == 0 || k < d { 0 } else { k - d + 1 }
}
