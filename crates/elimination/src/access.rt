// Where one polynomial or right side of a row store stands; rows and columns are counted from 1 (SCOPE 3.2, 3.23).
ghost use Rattle.std.specs.Prelude.{◌≡◌, ◌&&◌, pred, ◌+◌, ◌*◌, ◌≤◌, T};
ghost use Rattle.std.specs.Int.Signed.{le_z};
ghost use Rattle.rules.specs.Limits.{most_equations, entries_length, row_length};
ghost use Rattle.rules.specs.Stores.{sizes_right_of};
ghost use Rattle.rules.specs.Calls as Calls;
ghost use Rattle.stores.specs.Validity.{the_sizes_of};

use stores::lengths::{ENTRIES, ROW};

// Blocks are numbered from t to l (SCOPE 1.2).
fn between(block: i64, l: i64, t: i64) -> bool
    ensures { result ≡ (le_z t block && le_z block l) }
{
    (t..=l).contains(&block)
}

// Does the system have this row, block and column? (SCOPE 3.42)
pub(crate) fn place_right(
    sizes: stores::validity::Sizes,
    row: usize,
    block: i64,
    column: usize,
) -> bool
    ensures { result ≡ Calls.place_right_of (the_sizes_of sizes) row block column }
{
    if !stores::validity::counted(row, sizes.equations) {
        return false;
    }
    if !between(block, sizes.l, sizes.t) {
        return false;
    }
    stores::validity::counted(column, sizes.m)
}

// Where the sixteen numbers of the polynomial begin (SCOPE 3.2).
pub(crate) fn place_of(
    sizes: stores::validity::Sizes,
    row: usize,
    block: i64,
    column: usize,
) -> usize
    requires { T (sizes_right_of (the_sizes_of sizes)) × T (Calls.place_right_of (the_sizes_of sizes) row block column) }
    ensures { result ≡ Calls.polynomial_place (the_sizes_of sizes) row block column }
{
    let l = sizes.l;
    let down = (l - block) as usize;
    (row - 1) * ROW + down * 64 + (column - 1) * 16
}

// Where the sixteen numbers of a right side begin: behind the entries of its row (SCOPE 3.2).
pub(crate) fn side_of(row: usize) -> usize
    requires { (1 ≤ row) × (row ≤ most_equations) }
    ensures { result ≡ pred row * row_length + entries_length }
{
    (row - 1) * ROW + ENTRIES
}
