// The table of rows, read.
//
// A driver takes the table once and lends it. It holds two bytes a row, and no more: whoever checks a telegram has it on the stack.
ghost use Rattle.std.specs.Prelude.{◌≡◌};
ghost use Rattle.format.specs.Table.{words};

// The definition's table, row by row: whoever has one need not ask that it is the table.
#[derive(Drop)]
pub(crate) struct Rows {
    rows: [u16; 213],
    ghost table: { rows ≡ words },
}

impl Rows {
    ghost use Rattle.std.specs.Prelude.{◌<◌};
    ghost use Rattle.format.specs.Table.{act, rest, field_at, jump, code_of, low_of, high_of};

    pub(crate) fn new() -> Rows {
        Rows {
            rows: table::rows(),
        }
    }

    // What stands in row k.
    pub(crate) fn act(&self, k: usize) -> u32
        requires { k < 213 }
        ensures { result ≡ act k }
    {
        (self.rows[k] % 8) as u32
    }

    // The bits of the field that is due in row k.
    pub(crate) fn width(&self, k: usize) -> usize
        requires { k < 213 }
        ensures { result ≡ (field_at k).width }
    {
        (self.rows[k] / 8 % 128) as usize
    }

    // The number of the field's rule, or how far the row jumps.
    pub(crate) fn rest(&self, k: usize) -> u32
        requires { k < 213 }
        ensures { result ≡ rest k }
    {
        (self.rows[k] / 1024) as u32
    }

    pub(crate) fn code(&self, k: usize) -> u32
        requires { k < 213 }
        ensures { result ≡ code_of (field_at k).sense }
    {
        table::code(self.act(k), self.rest(k))
    }

    pub(crate) fn low(&self, k: usize) -> u64
        requires { k < 213 }
        ensures { result ≡ low_of (field_at k) }
    {
        table::low(self.rest(k))
    }

    pub(crate) fn high(&self, k: usize) -> u64
        requires { k < 213 }
        ensures { result ≡ high_of (field_at k) }
    {
        table::high(self.rest(k))
    }

    // Where a field leads that steers, unless it is followed by the next row.
    pub(crate) fn jump(&self, k: usize) -> usize
        requires { (k < 213) × (2 < act k) }
        ensures { result ≡ jump k }
    {
        k + table::leap(self.act(k), self.rest(k))
    }

    // The row that repeats the group whose end row k is, or 0 at a packet's end.
    pub(crate) fn back(&self, k: usize) -> usize
        requires { (k < 213) × (act k ≡ 0) }
        ensures { result ≡ jump k }
    {
        table::back(k, self.rest(k))
    }
}
