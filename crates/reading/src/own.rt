// A sheet read straight into stores of the caller's own.
ghost use Rattle.std.specs.Prelude.{◌≡◌, IfOk};
ghost use Rattle.rules.specs.Stores.{largest_rows, relation_need};
ghost use Rattle.rules.specs.Calls.{zeros};
ghost use Rattle.rules.specs.SheetCalls.{read_call};
ghost use Rattle.stores.specs.Validity.{the_sizes_of};
ghost use Rattle.reading.specs.WholeSheet.{sheet_in};
ghost use Rattle.reading.specs.ReadCalls.{call_of};
ghost use Rattle.reading.specs.RelationLines.{RelationLines};

use refusals::Refusal;
use stores::lengths::{RELATION, ROW};

// A sheet that was read, and between which places of its bytes the lines of its relations stand.
#[derive(Clone, Copy)]
pub struct OwnRead {
    pub sheet: crate::sheet::Sheet,
    pub from: usize,
    pub to: usize,
}

// What `read_sheet` promises, in stores of the largest sizes that are zero: no copy is made, and on a refusal only what may have been
// written is cleared again. No public entry point.
pub fn read_own(bytes: &[u8], rows: &mut [i64], relations: &mut [i64]) -> Result<OwnRead, Refusal>
    requires { (rows.old ≡ zeros largest_rows) × (relations.old ≡ zeros relation_need) }
    ensures relations_after { call_of (sheet_in result) rows.new relations.new
        ≡ read_call bytes.now rows.old relations.old }
    ensures relation_lines { IfOk result
        (λ r. RelationLines bytes.now (the_sizes_of r.sheet.sizes) r.sheet.relations relations.new r.from r.to) }
{
    let z = crate::sizes::sizes_at(bytes, 0)?;
    let filled = z.sizes.equations * ROW;
    let h = match crate::sheet::head_at(bytes, z, rows) {
        Ok(h) => h,
        Err(refusal) => {
            stores::rows::clear(rows, 0, filled);
            return Err(refusal);
        }
    };
    let used = h.relations * RELATION;
    match crate::sheet::rest_at(bytes, h, &mut rows[..filled], &mut relations[..used]) {
        Ok(r) => Ok(r),
        Err(refusal) => {
            stores::rows::clear(rows, 0, filled);
            stores::rows::clear(relations, 0, used);
            Err(refusal)
        }
    }
}
