// Sheets read into lent stores and written from them. `read_sheet` and `write_sheet` are the public entry points: no
// `requires`, and a contract that gives the result and every lent store by equations with `rules`.
#![tactic(auto)]

ghost use Rattle.std.specs.Prelude.{◌≡◌};
ghost use Rattle.rules.specs.SheetCalls.{read_call, write_call};
ghost use Rattle.stores.specs.Validity.{the_sizes_of};
ghost use Rattle.reading.specs.ReadCalls as ReadCalls;
ghost use Rattle.writing.specs.WriterChecks.{call_of};

pub use reading::sheet::Sheet;
pub use refusals::Refusal;

// A sheet read into lent stores. On a refusal they are unchanged (SCOPE 4.43); numbers past the needed part stay
// (SCOPE 3.12).
pub fn read_sheet(bytes: &[u8], rows: &mut [i64], relations: &mut [i64]) -> Result<Sheet, Refusal>
    ensures { ReadCalls.call_of result rows.new relations.new
        ≡ read_call bytes.now rows.old relations.old }
{
    reading::read_sheet(bytes, rows, relations)
}

// The system of the stores and its column order as a sheet: the order's four numbers are different columns of 1..m and zeros
// past them, all four 0 for none (SCOPE 4.53). The length of the sheet; nothing is written on a refusal (SCOPE 4.54), and bytes past
// the length stay (SCOPE 4.51).
pub fn write_sheet(
    rows: &[i64],
    relations: &[i64],
    sizes: stores::validity::Sizes,
    count: usize,
    order: [usize; 4],
    bytes: &mut [u8],
) -> Result<usize, Refusal>
    ensures { call_of result bytes.new
        ≡ write_call (the_sizes_of sizes) count order rows.now relations.now bytes.old }
{
    writing::writer::write_sheet(rows, relations, sizes, count, order, bytes)
}
