// A sheet read into lent stores, in one pass over its bytes: no `requires`, and a contract that gives the result and both stores by
// an equation with `rules`.
#![tactic(auto)]

ghost use Rattle.std.specs.Prelude.{◌≡◌};
ghost use Rattle.rules.specs.SheetCalls.{read_call};
ghost use Rattle.reading.specs.ReadCalls.{call_of};

use refusals::Refusal;
use stores::lengths::{RELATION, RELATIONS, ROWS};

pub mod counts;
pub mod equations;
mod order;
pub mod own;
mod sections;
pub mod sheet;
mod sides;
pub mod sizes;
mod terms;

// The sheet is read into stores of its own first, so that the lent stores are unchanged on a refusal (SCOPE 4.43). A
// sheet without relations needs none for them.
pub fn read_sheet(
    bytes: &[u8],
    rows: &mut [i64],
    relations: &mut [i64],
) -> Result<sheet::Sheet, Refusal>
    ensures { call_of result rows.new relations.new
        ≡ read_call bytes.now rows.old relations.old }
{
    let z = sizes::sizes_at(bytes, 0)?;
    let mut row_numbers = [0i64; ROWS];
    let h = sheet::head_at(bytes, z, &mut row_numbers)?;
    let used = h.relations * RELATION;
    if used == 0 {
        let mut none = [0i64; 1];
        return sheet::fill(
            bytes,
            h,
            &mut row_numbers,
            &mut none[..used],
            rows,
            relations,
        );
    }
    let mut relation_numbers = [0i64; RELATIONS];
    sheet::fill(
        bytes,
        h,
        &mut row_numbers,
        &mut relation_numbers[..used],
        rows,
        relations,
    )
}
