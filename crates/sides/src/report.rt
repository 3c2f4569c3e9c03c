// The root report over the rows of a store, in one pass: each diagonal polynomial gives its furthest root with how often it occurs.
ghost use Rattle.std.specs.Prelude.{◌≡◌, ◌≤◌, ◌<◌, T, length};
ghost use Rattle.algebra.specs.Roots.{roots};
ghost use Rattle.rules.specs.Limits.{bound, small, coefficient_count, column_count};
ghost use Rattle.lists.specs.Tests.{every};
ghost use Rattle.rules.specs.Stores.{row_need};
ghost use Rattle.rules.specs.Elimination as Elimination;
ghost use Rattle.multiplicities.specs.Counts.{answered_with};
ghost use Rattle.working_rows.specs.Found.{Columns};
ghost use Rattle.sides.specs.Lent.{side_of, Within};
ghost use Rattle.sides.specs.FurthestRoots.{Nonzero, is_beyond_of, times_of, further_with};
ghost use Rattle.sides.specs.ReportLaws.{settled_state, diagonal_at_of, reported_with};

use crate::Side;
use multiplicities::Root;
use polynomials::lengths::COEFFICIENTS;
use stores::lengths::{BLOCK, COLUMNS, ROW};

// Of two roots, is b the one to be taken: the larger or, on the trailing side, the smaller?
fn is_beyond(a: i64, b: i64, side: Side) -> bool
    ensures { result ≡ is_beyond_of (side_of side) a b }
{
    match side {
        Side::Leading => a <= b,
        Side::Trailing => !(a <= b),
    }
}

// The further of two answers. A root that both give occurs as often as in both.
fn further(a: Option<Root>, b: Option<Root>, side: Side) -> Option<Root>
    requires { (times_of a ≤ bound) × (times_of b ≤ bound) }
    ensures { result ≡ further_with (side_of side) a b }
{
    let Some(first) = a else {
        return b;
    };
    let Some(second) = b else {
        return a;
    };
    if first.value == second.value {
        Some(Root {
            value: first.value,
            times: first.times + second.times,
        })
    } else if is_beyond(first.value, second.value, side) {
        b
    } else {
        a
    }
}

// The largest root of a polynomial with how often it occurs, on the trailing side the smallest.
fn furthest_with(p: &[i64], side: Side) -> Option<Root>
    requires { (length p.now ≡ coefficient_count) × T (every small p.now) }
    ensures { result ≡ answered_with p.now (Elimination.furthest (side_of side) (roots p.now)) }
{
    match side {
        Side::Leading => multiplicities::largest_with(p),
        Side::Trailing => multiplicities::smallest_with(p),
    }
}

// Where the numbers of row j's diagonal polynomial begin.
pub fn diagonal_at(j: usize, column: usize, side: Side, span: usize) -> usize
    requires { (j < column_count) × (column < column_count) × (span ≤ 4) }
    ensures { result ≡ diagonal_at_of (side_of side) span j column }
{
    let block = match side {
        Side::Leading => 0,
        Side::Trailing => span,
    };
    j * ROW + block * BLOCK + column * COEFFICIENTS
}

// The greatest integer at which a diagonal polynomial of the output vanishes, if there is one (SCOPE 2.81); on the
// trailing side the least (SCOPE 2.93). With it stands how often it occurs in all of them together (SCOPE 2.83). The
// output has a row for each settled column, and no diagonal polynomial is zero.
pub fn report(
    store: &[i64],
    settled: usize,
    order: [usize; COLUMNS],
    side: Side,
    span: usize,
) -> Option<Root>
    requires settled_le_column_count { (settled ≤ column_count) × (span ≤ 4) × Columns order × Within (row_need settled) store.now }
    requires nonzero { Nonzero (Elimination.diagonal (side_of side) span (settled_state settled store.now order)) }
    ensures { result ≡ reported_with (side_of side) span (settled_state settled store.now order) }
{
    let mut answer = None;
    for (j, column) in order[..settled].iter().enumerate() {
        let from = diagonal_at(j, *column, side, span);
        let to = from + COEFFICIENTS;
        answer = further(answer, furthest_with(&store[from..to], side), side);
    }
    answer
}
