// A row shifted down by one block: its mirror is shifted up and mirrored back.
ghost use Rattle.std.specs.Prelude.{T};
ghost use Rattle.rules.specs.Limits.{small};
ghost use Rattle.lists.specs.Tests.{every};
ghost use Rattle.rules.specs.Stores.{row_of};
ghost use Rattle.rules.specs.Elimination.{limit_coefficients};
ghost use Rattle.theory.specs.ShiftDown.{shift_down};
ghost use Rattle.working_rows.specs.Working.{numbers_held, Full};
ghost use Rattle.working_rows.specs.Worked.{Shown};

use refusals::Refusal;
use stores::lengths::BLOCKS;
use working_rows::WorkingRow;

// n - 1 for n, and a zero block comes in at the top; a coefficient past ±C is refused with 8 (SCOPE 13.24).
pub(crate) fn lowered(row: WorkingRow) -> Result<WorkingRow, Refusal>
    requires { Full row × T (every small (numbers_held row)) }
    ensures { Shown result (limit_coefficients (shift_down (row_of (numbers_held row)))) }
{
    let mirror = working_rows::mirroring::mirrored(row, BLOCKS - 1);
    let up = working_rows::shifting::shifted(mirror)?;
    Ok(working_rows::mirroring::mirrored(up, BLOCKS - 1))
}
