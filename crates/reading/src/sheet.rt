// A whole sheet.
ghost use Rattle.std.specs.Prelude.{◌≡◌, ◌*◌, ◌≤◌, length, drop, IfOk};
ghost use Rattle.rules.specs.Limits.{row_length, relation_length, most_equations};
ghost use Rattle.rules.specs.Stores.{rows_of, relations_of, largest_rows, relation_need, row_store_of, relation_store_of, equations};
ghost use Rattle.rules.specs.Calls.{zeros};
ghost use Rattle.rules.specs.Numbers.{got};
ghost use Rattle.rules.specs.Sheets.{read_sizes};
ghost use Rattle.lists.specs.Overwritten.{overwrite};
ghost use Rattle.rules.specs.SheetCalls.{read_call};
ghost use Rattle.stores.specs.Validity.{the_sizes_of};
ghost use Rattle.reading.specs.WholeSheet.{result_of, sheet_in, HeadTo, HeadRead, SheetRead};
ghost use Rattle.reading.specs.ReadCalls.{call_of};
ghost use Rattle.reading.specs.RelationLines.{RelationLines};

use crate::own::OwnRead;
use crate::sizes::SizesRead;
use refusals::Refusal;
use stores::lengths::{COLUMNS, RELATION, RELATIONS, ROW};

// What reading a sheet gives. The order holds columns counted from 1, zeros past its end (SCOPE 4.41).
#[derive(Clone, Copy)]
pub struct Sheet {
    pub sizes: stores::validity::Sizes,
    pub relations: usize,
    pub order: [usize; COLUMNS],
}

// What a sheet begins with: its sizes, its equations and the number of its relations.
#[derive(Clone, Copy)]
pub(crate) struct SheetHead {
    pub at: usize,
    pub sizes: stores::validity::Sizes,
    pub relations: usize,
}

// The equations, read into the first rows of `rows`, and the number of relations, behind the sizes. With a refusal too, only so many
// rows as the sizes say may have been written.
pub(crate) fn head_at(bytes: &[u8], z: SizesRead, rows: &mut [i64]) -> Result<SheetHead, Refusal>
    requires sizes_read { (z.at ≤ length bytes.now) × (read_sizes bytes.now ≡ got (the_sizes_of z.sizes) (drop z.at bytes.now)) }
    requires rows_value { rows.old ≡ zeros largest_rows }
    ensures head_read { HeadRead bytes.now (the_sizes_of z.sizes) result rows.new }
    ensures rows_past { drop (equations (the_sizes_of z.sizes) * row_length) rows.new
        ≡ drop (equations (the_sizes_of z.sizes) * row_length) rows.old }
{
    let sizes = z.sizes;
    let used = sizes.equations * ROW;
    let e = crate::sections::equations_at(bytes, z.at, sizes, sizes.equations, &mut rows[..used])?;
    let k = tokens::number_between(bytes, e, 0, 16, 10)?;
    Ok(SheetHead {
        at: k.at,
        sizes,
        relations: k.value as usize,
    })
}

// The relations, read into `relations`, the column order, and the right sides of all, read into `rows` and `relations`, where the
// sheet has them.
pub(crate) fn rest_at(
    bytes: &[u8],
    h: SheetHead,
    rows: &mut [i64],
    relations: &mut [i64],
) -> Result<OwnRead, Refusal>
    requires head_to { HeadTo bytes.now (the_sizes_of h.sizes) h.relations h.at rows.old }
    requires row_length_in_bounds { (equations (the_sizes_of h.sizes) * row_length ≤ length rows.old) × (relations.old ≡ zeros (h.relations * relation_length)) }
    ensures sheet_read { SheetRead bytes.now (result_of (sheet_in result)) rows.new relations.new }
    ensures sizes_value { IfOk result (λ r. (the_sizes_of r.sheet.sizes ≡ the_sizes_of h.sizes) × (r.sheet.relations ≡ h.relations)
        × RelationLines bytes.now (the_sizes_of h.sizes) h.relations relations.new r.from r.to) }
{
    let sizes = h.sizes;
    let s = crate::sections::relations_at(bytes, h.at, sizes, h.relations, relations)?;
    let o = crate::order::order_at(bytes, s, sizes.m)?;
    crate::sides::end_at(bytes, o.at, sizes.equations, h.relations, rows, relations)?;
    let order = o.order;
    Ok(OwnRead {
        sheet: Sheet {
            sizes,
            relations: h.relations,
            order,
        },
        from: h.at,
        to: s,
    })
}

// The numbers of some rows, put into a store that is long enough; what lies behind them stays (SCOPE 3.12).
pub fn fill_rows(store: &mut [i64], numbers: &[i64], equations: usize)
    requires { (equations ≤ most_equations) × (equations * row_length ≤ length store.old) × (equations * row_length ≤ length numbers.now) }
    ensures { store.new ≡ overwrite (row_store_of (rows_of equations numbers.now)) store.old }
{
    crate::equations::copy(store, numbers, equations * ROW);
}

// The numbers of the relations, put into a store that is long enough, and 0 at the places behind them (SCOPE 3.13).
pub fn fill_relations(store: &mut [i64], numbers: &[i64], count: usize)
    requires { (count ≤ 16) × (relation_need ≤ length store.old) × (count * relation_length ≤ length numbers.now) }
    ensures { store.new ≡ overwrite (relation_store_of (relations_of count numbers.now)) store.old }
{
    let used = count * RELATION;
    crate::equations::copy(store, numbers, used);
    stores::rows::clear(store, used, RELATIONS - used);
}

// The rest of a sheet whose equations have been read into `equations`, its relations read into `scratch`, and the lent stores
// filled with what was read: on a refusal they are unchanged (SCOPE 4.43), and 1 comes only when the bytes are a sheet without
// a fault (SCOPE 4.42).
pub(crate) fn fill(
    bytes: &[u8],
    h: SheetHead,
    equations: &mut [i64],
    scratch: &mut [i64],
    rows: &mut [i64],
    relations: &mut [i64],
) -> Result<Sheet, Refusal>
    requires head_to { HeadTo bytes.now (the_sizes_of h.sizes) h.relations h.at equations.old }
    requires largest_rows_in_bounds { (largest_rows ≤ length equations.old) × (scratch.old ≡ zeros (h.relations * relation_length)) }
    ensures { call_of result rows.new relations.new
        ≡ read_call bytes.now rows.old relations.old }
{
    let rest = rest_at(bytes, h, equations, scratch)?;
    let r = rest.sheet;
    if !stores::validity::lengths_right(rows, relations, r.sizes.equations) {
        return Err(Refusal::ShortStore);
    }
    fill_rows(rows, equations, r.sizes.equations);
    fill_relations(relations, scratch, r.relations);
    Ok(r)
}
