// The labels of all rows with where each begins, as one value.
ghost use Rattle.std.specs.Prelude.{◌≡◌};
ghost use Rattle.sheet.specs.Rows.{field_of, label_text};
ghost use Rattle.sheet.specs.Steps.{Tables};

use crate::{labels, starts};

// The number of the last field, the end mark.
const LAST: usize = 71;

// What the rows of all fields begin with. A program takes it into a local once, and lends it.
#[derive(Drop)]
pub struct RowLabels {
    text: [u8; 886],
    bounds: [u16; 73],
    ghost tables: { Tables text bounds },
}

impl RowLabels {
    // The table of the rows, and where each begins.
    pub fn new() -> Self
        ensures { Tables result.text result.bounds }
    {
        RowLabels {
            text: labels(),
            bounds: starts(),
        }
    }

    // What the row of field k begins with. A number past the last field is taken as the end mark's.
    pub fn label(&self, k: usize) -> &[u8]
        ensures { result.now ≡ label_text (field_of k) }
    {
        let k = k.min(LAST);
        &self.text[self.bounds[k] as usize..self.bounds[k + 1] as usize]
    }
}
