// Differential sheets: equations in the variable, read as the recurrences that the coefficients of their series satisfy. `read_differential`
// and `write_recurrence` are the public entry points: no `requires`, and a contract that gives the result and every lent store by
// equations.
#![tactic(auto)]

ghost use Rattle.std.specs.Prelude.{◌≡◌};
ghost use Rattle.stores.specs.Validity.{the_sizes_of};
ghost use Rattle.reading.specs.ReadCalls as ReadCalls;
ghost use Rattle.writing.specs.WriterChecks as WriterChecks;
ghost use Rattle.differential.specs.Grammar.{sizes_for_of};
ghost use Rattle.differential.specs.Read.{extent_of, SmallExtent};
ghost use Rattle.differential.specs.Calls.{read_differential_call, write_recurrence_call};

pub use reading::sheet::Sheet;
pub use refusals::Refusal;
use stores::lengths::{COLUMNS, RELATIONS, ROWS};

mod equations;
mod extent;
mod rows;
mod sheet;
mod terms;

// The sizes of the recurrence: l = K and t = -J (SCOPE 10.21).
fn sizes_for(x: extent::Extent) -> stores::validity::Sizes
    requires { SmallExtent (extent_of x) }
    ensures { the_sizes_of result ≡ sizes_for_of (extent_of x) }
{
    stores::validity::Sizes {
        m: x.unknowns,
        equations: x.equations,
        l: x.order as i64,
        t: -(x.degree as i64),
    }
}

// The recurrence of a differential sheet, read into lent stores (SCOPE 10.41). On a refusal they are unchanged (SCOPE 4.43); numbers past the needed
// part stay (SCOPE 3.12).
pub fn read_differential(
    bytes: &[u8],
    rows: &mut [i64],
    relations: &mut [i64],
) -> Result<Sheet, Refusal>
    ensures { ReadCalls.call_of result rows.new relations.new
        ≡ read_differential_call bytes.now rows.old relations.old }
{
    let mut numbers = [0i64; ROWS];
    let x = sheet::sheet_at(bytes, &mut numbers)?;
    if !stores::validity::lengths_right(rows, relations, x.equations) {
        return Err(Refusal::ShortStore);
    }
    reading::sheet::fill_rows(rows, &numbers, x.equations);
    reading::sheet::fill_relations(relations, &numbers, 0);
    let sizes = sizes_for(x);
    Ok(Sheet {
        sizes,
        relations: 0,
        order: [0; COLUMNS],
    })
}

// The recurrence of a differential sheet, written as a sheet (SCOPE 10.42): its length. Nothing is written on a refusal (SCOPE 4.54), and bytes
// past the length stay (SCOPE 4.51). The recurrence passes the checks of the writer, so they are not made.
pub fn write_recurrence(sheet: &[u8], bytes: &mut [u8]) -> Result<usize, Refusal>
    ensures { WriterChecks.call_of result bytes.new ≡ write_recurrence_call sheet.now bytes.old }
{
    let mut numbers = [0i64; ROWS];
    let x = sheet::sheet_at(sheet, &mut numbers)?;
    let relations = [0i64; RELATIONS];
    let order: [usize; COLUMNS] = [0; COLUMNS];
    let sizes = sizes_for(x);
    writing::writer::write_checked(&numbers, &relations, sizes, 0, order, bytes)
}
