// The limit of the coefficients of a new row.
ghost use Rattle.std.specs.Prelude.{◌≡◌};
ghost use Rattle.lists.specs.Tests.{every};
ghost use Rattle.rules.specs.Limits.{small};
ghost use Rattle.rules.specs.Rows as Rows;
ghost use Rattle.rules.specs.Stores.{row_of};
ghost use Rattle.rules.specs.Elimination.{limit_coefficients};
ghost use Rattle.working_rows.specs.Working.{numbers_held, Full};
ghost use Rattle.working_rows.specs.Worked.{Shown};

use crate::WorkingRow;
use refusals::Refusal;

// A row, or the refusal where a coefficient is past ±C, on the right side too (SCOPE 2.44). Whether all are within is known already.
pub fn limited(row: WorkingRow, within: bool) -> Result<WorkingRow, Refusal>
    requires { Full row × (row.width ≡ Rows.width (row_of row.entries)) × (within ≡ every small (numbers_held row)) }
    ensures { Shown result (limit_coefficients (row_of (numbers_held row))) }
{
    if !within {
        return Err(Refusal::CoefficientPassed);
    }
    Ok(row)
}
