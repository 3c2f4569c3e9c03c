// A working row: made of its numbers, loaded from a store and saved into it.
ghost use Rattle.std.specs.Prelude.{◌≡◌, ◌+◌, ◌≤◌, length, take, drop};
ghost use Rattle.std.proofs.Math.Seq.{paste};
ghost use Rattle.rules.specs.Limits.{row_length};
ghost use Rattle.rules.specs.Rows as Rows;
ghost use Rattle.rules.specs.Stores.{row_of};
ghost use Rattle.working_rows.specs.Working.{working_of, numbers_held, Full, loaded};

use crate::WorkingRow;
use polynomials::lengths::COEFFICIENTS;
use stores::lengths::{ENTRIES, ROW};

// The row of these entries and this right side, with its width.
pub fn working(entries: [i64; ENTRIES], right: [i64; COEFFICIENTS]) -> WorkingRow
    ensures { result ≡ working_of entries right }
{
    let width = crate::entries::width(&entries[..]);
    WorkingRow {
        entries,
        right,
        width,
    }
}

// The row that a store holds from a place on, whose width is known.
pub fn load(store: &[i64], at: usize, width: usize) -> WorkingRow
    requires { (at + row_length ≤ length store.now)
        × (width ≡ Rows.width (row_of (take row_length (drop at store.now)))) }
    ensures { result ≡ loaded store.now at }
{
    let middle = at + ENTRIES;
    let end = at + ROW;
    let mut entries = [0; ENTRIES];
    entries.copy_from_slice(&store[at..middle]);
    let mut right = [0; COEFFICIENTS];
    right.copy_from_slice(&store[middle..end]);
    WorkingRow {
        entries,
        right,
        width,
    }
}

// The store with the row's numbers from a place on; all others stay.
pub fn save(store: &mut [i64], at: usize, row: WorkingRow)
    requires { (at + row_length ≤ length store.old) × Full row }
    ensures { store.new ≡ paste store.old at (numbers_held row) row_length }
{
    stores::rows::save(store, at, &row.entries);
    stores::rows::save(store, at + ENTRIES, &row.right);
}
