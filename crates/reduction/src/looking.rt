// What a step looks at in row i of the store, where the row stands.
ghost use Rattle.std.specs.Prelude.{◌≡◌, ◌+◌, ◌*◌, ◌≤◌, length};
ghost use Rattle.algebra.specs.Polynomials.{is_zero_of};
ghost use Rattle.rules.specs.Limits.{column_count, most_span, row_length};
ghost use Rattle.rules.specs.Rows as Rows;
ghost use Rattle.rules.specs.Stores.{row_of};
ghost use Rattle.working_rows.specs.Found.{found_or, entries_at, Columns};
ghost use Rattle.reduction.specs.StoreExchange.{numbers_at};

use stores::lengths::{COLUMNS, ENTRIES, ROW};

// Its width (SCOPE 2.1), where only its first span + 1 blocks are in use.
pub fn width_at(rows: &[i64], i: usize, span: usize) -> usize
    requires { (i * row_length + row_length ≤ length rows.now) × (span ≤ most_span)
        × (Rows.width (row_of (numbers_at rows.now i)) ≤ span + 1) }
    ensures { result ≡ Rows.width (row_of (numbers_at rows.now i)) }
{
    let row = stores::rows::row_at(rows, i * ROW);
    working_rows::entries::width_within(&row[..ENTRIES], span + 1)
}

// Whether its right side is zero (SCOPE 2.11).
pub fn side_zero_at(rows: &[i64], i: usize) -> bool
    requires { i * row_length + row_length ≤ length rows.now }
    ensures { result ≡ is_zero_of (row_of (numbers_at rows.now i)).right }
{
    let row = stores::rows::row_at(rows, i * ROW);
    polynomials::content::is_zero(&row[ENTRIES..])
}

// The first settled row whose column meets a nonzero leading entry of it, or `settled` (SCOPE 2.21, 2.26).
pub fn met_at(rows: &[i64], i: usize, order: [usize; COLUMNS], settled: usize) -> usize
    requires { (i * row_length + row_length ≤ length rows.now) × (settled ≤ column_count) × Columns order }
    ensures { result ≡ found_or settled (Rows.first_nonzero (entries_at (row_of (numbers_at rows.now i)) order settled)) }
{
    let row = stores::rows::row_at(rows, i * ROW);
    working_rows::entries::first_met(&row[..ENTRIES], order, settled)
}

// The lowest column with a nonzero leading entry, or COLUMNS (SCOPE 2.51).
pub fn column_at(rows: &[i64], i: usize) -> usize
    requires { i * row_length + row_length ≤ length rows.now }
    ensures { result ≡ found_or column_count (Rows.first_nonzero (Rows.leading_block (row_of (numbers_at rows.now i)))) }
{
    let row = stores::rows::row_at(rows, i * ROW);
    working_rows::entries::first_column(&row[..ENTRIES])
}
