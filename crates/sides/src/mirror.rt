// The mirror of what the stores hold, before a run on the trailing side and after it.
ghost use Rattle.std.specs.Prelude.{◌≡◌, ◌+◌, ◌≤◌, T, length, take, drop};
ghost use Rattle.std.proofs.Math.Seq.{paste};
ghost use Rattle.lists.specs.Tests.{every};
ghost use Rattle.rules.specs.Limits.{row_length, small};
ghost use Rattle.rules.specs.Stores.{row_need};
ghost use Rattle.sides.specs.Lent.{Within, Listing};
ghost use Rattle.sides.specs.MirrorLaws.{mirror_numbers, RowsMirrored, RelationsMirrored};

use stores::lengths::{ENTRIES, RELATION, ROW};

// Block -s for s and -n for n in the row that a store holds from a place on.
fn mirror_row(store: &mut [i64], at: usize, span: usize)
    requires { (span ≤ 4) × (at + row_length ≤ length store.old) × T (every small (take row_length (drop at store.old))) }
    ensures { store.new
        ≡ paste store.old at (mirror_numbers span (take row_length (drop at store.old)))
        row_length }
{
    let end = at + ENTRIES;
    let width = working_rows::entries::width(&store[at..end]);
    let row = working_rows::stored::load(store, at, width);
    working_rows::stored::save(store, at, working_rows::mirroring::mirrored(row, span));
}

// Block -s for s and -n for n in every row (SCOPE 2.91).
pub fn mirror_rows(store: &mut [i64], equations: usize, span: usize)
    requires { (span ≤ 4) × Within (row_need equations) store.old }
    ensures { RowsMirrored equations span store.old store.new }
{
    for i in 0..equations {
        let at = i * ROW;
        mirror_row(store, at, span);
    }
}

// The same in every relation from a place on, and -n0 for n0 (SCOPE 2.91).
pub fn mirror_relations(store: &mut [i64], from: usize, count: usize, span: usize)
    requires { (span ≤ 4) × (from ≤ count) × Listing count store.old }
    ensures { RelationsMirrored from count span store.old store.new }
{
    for k in from..count {
        let at = k * RELATION;
        store[at] = integers::negated(store[at]);
        let row = at + 1;
        mirror_row(store, row, span);
    }
}
