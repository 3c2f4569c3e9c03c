// Rows that change places in a store.
ghost use Rattle.std.specs.Prelude.{◌≡◌, ◌+◌, ◌*◌, ◌≤◌, length};
ghost use Rattle.rules.specs.Limits.{row_length};
ghost use Rattle.rules.specs.Rows as Rows;
ghost use Rattle.rules.specs.Stores.{row_of};
ghost use Rattle.reduction.specs.StoreExchange.{numbers_at, exchanged_rows};

use stores::lengths::ROW;

// Rows i and j, whose widths are known, each loaded and saved by value (SCOPE 2.22).
pub fn exchange(rows: &mut [i64], i: usize, j: usize, width: usize, other: usize)
    requires row_length_in_bounds { (i * row_length + row_length ≤ length rows.old) × (j * row_length + row_length ≤ length rows.old) }
    requires width_value { (width ≡ Rows.width (row_of (numbers_at rows.old i))) × (other ≡ Rows.width (row_of (numbers_at rows.old j))) }
    ensures { rows.new ≡ exchanged_rows rows.old i j }
{
    let first = working_rows::stored::load(rows, i * ROW, width);
    let second = working_rows::stored::load(rows, j * ROW, other);
    working_rows::stored::save(rows, j * ROW, first);
    working_rows::stored::save(rows, i * ROW, second);
}
