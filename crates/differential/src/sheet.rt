// A whole differential sheet, read into rows of the recurrence.
ghost use Rattle.std.specs.Prelude.{◌≡◌};
ghost use Rattle.rules.specs.Calls.{zeros};
ghost use Rattle.rules.specs.Stores.{largest_rows};
ghost use Rattle.differential.specs.WholeSheet.{SheetTo};

use crate::extent::Extent;
use refusals::Refusal;
use stores::lengths::ROW;

// The sheet's recurrence in the first rows of `rows`; bytes behind the last equation are 4 (SCOPE 10.7, 10.14).
pub(crate) fn sheet_at(bytes: &[u8], rows: &mut [i64]) -> Result<Extent, Refusal>
    requires { rows.old ≡ zeros largest_rows }
    ensures { SheetTo bytes.now result rows.new }
{
    let h = crate::extent::extent_at(bytes)?;
    let x = h.extent;
    let used = x.equations * ROW;
    let end = crate::equations::equations_at(bytes, h.at, x, x.equations, &mut rows[..used])?;
    if end < bytes.len() {
        return Err(Refusal::WrongEnd);
    }
    Ok(x)
}
