// Data sheets: a telegram as a table of text. What a sheet is, and what is answered; sheet_out writes one, and sheet_in reads one.
#![tactic(auto)]

ghost use Rattle.std.specs.Prelude.{◌≡◌};
ghost use Rattle.sheet.specs.Sheets.{number_of, value_of};
ghost use Rattle.sheet.specs.declared.SheetError.TheVariants.{Refused};

use format::Refusal;

// Why there is no sheet, or no telegram of one: refused by the library, or at a row.
#[derive(Clone, Copy)]
pub enum SheetError {
    Refused(Refusal),
    Row(usize),
}

impl From<Refusal> for SheetError {
    ghost from_gives = { λ r e. e ≡ Refused r };

    fn from(r: Refusal) -> Self {
        SheetError::Refused(r)
    }
}

// The paper's number of a reply: 0 where nothing is refused.
pub fn number(reply: Result<usize, SheetError>) -> u64
    ensures { result ≡ number_of reply }
{
    match reply {
        Ok(_) => 0,
        Err(SheetError::Refused(r)) => refusals::number(r.kind),
        Err(SheetError::Row(_)) => 20,
    }
}

// What comes with it: the size of what was made, the place, or the row.
pub fn value(reply: Result<usize, SheetError>) -> usize
    ensures { result ≡ value_of reply }
{
    match reply {
        Ok(n) => n,
        Err(SheetError::Refused(r)) => r.place,
        Err(SheetError::Row(k)) => k,
    }
}
