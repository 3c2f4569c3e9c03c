// Width, leading entries and their first nonzero column, on the numbers of a row's left part.
ghost use Rattle.std.specs.Prelude.{◌≡◌, map, ◌≤◌, length, take};
ghost use Rattle.rules.specs.Limits.{block_count, column_count, entries_length};
ghost use Rattle.rules.specs.Rows as Rows;
ghost use Rattle.rules.specs.Stores.{row_of};
ghost use Rattle.working_rows.specs.Found.{found_or, Columns};

use polynomials::lengths::COEFFICIENTS;
use stores::lengths::{BLOCK, BLOCKS, COLUMNS};

// The blocks from l down to the lowest nonzero one are counted; there is none where the left part is
// zero, and the right side does not count (SCOPE 2.1). Past the first `most` blocks there are zeros only, and they are not looked at.
pub fn width_within(entries: &[i64], most: usize) -> usize
    requires { (length entries.now ≡ entries_length) × (most ≤ block_count) × (Rows.width (row_of entries.now) ≤ most) }
    ensures { result ≡ Rows.width (row_of entries.now) }
{
    for block in (0..most).rev() {
        let from = block * BLOCK;
        let to = from + BLOCK;
        if !polynomials::content::zero_throughout(&entries[from..to]) {
            return block + 1;
        }
    }
    0
}

// The same, where any block may be in use.
pub fn width(entries: &[i64]) -> usize
    requires { length entries.now ≡ entries_length }
    ensures { result ≡ Rows.width (row_of entries.now) }
{
    width_within(entries, BLOCKS)
}

// The lowest column with a nonzero leading entry (SCOPE 2.51) comes out of the loop by break; COLUMNS if the leading block is zero.
// Kept as a loop with a value: it is the example of one that ends by break (SCOPE 8.8), which no for can.
pub fn first_column(entries: &[i64]) -> usize
    requires { length entries.now ≡ entries_length }
    ensures { result ≡ found_or column_count (Rows.first_nonzero (Rows.leading_block (row_of entries.now))) }
{
    let mut i = 0;
    let column = loop {
        if i == BLOCK {
            break COLUMNS;
        }
        if entries[i] != 0 {
            break i / COEFFICIENTS;
        }
        i += 1;
    };
    column
}

// The first settled row whose column meets a nonzero leading entry of the row, or `settled` (SCOPE 2.21, 2.26).
pub fn first_met(entries: &[i64], order: [usize; COLUMNS], settled: usize) -> usize
    requires { (length entries.now ≡ entries_length) × (settled ≤ column_count) × Columns order }
    ensures { result ≡ found_or settled (Rows.first_nonzero (map (Rows.entry (row_of entries.now)) (take settled order))) }
{
    for (j, c) in order[..settled].iter().enumerate() {
        let from = *c * COEFFICIENTS;
        let to = from + COEFFICIENTS;
        if !polynomials::content::is_zero(&entries[from..to]) {
            return j;
        }
    }
    settled
}
