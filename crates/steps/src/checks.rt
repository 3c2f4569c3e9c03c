// The checks of a state that is handed in: sizes (11), lengths (1), numbers (11), the diagonal and the columns last (11) (SCOPE 11.21).
ghost use Rattle.std.specs.Prelude.{if◌then◌else◌, ◌≡◌, ◌&&◌, map, pred, ◌≤◌, leb, eqb, length, take, drop};
ghost use Rattle.rules.specs.Limits.{column_count};
ghost use Rattle.rules.specs.Stores.{row_need, rows_of, sizes_right_of};
ghost use Rattle.stores.specs.Validity.{the_sizes_of};
ghost use Rattle.lists.specs.Everywhere.{All};
ghost use Rattle.lists.specs.Padded.{pad_to};
ghost use Rattle.lists.specs.Tests.{every};
ghost use Rattle.working_rows.specs.Found.{Columns};
ghost use Rattle.steps.specs.HeldCalls as Calls;
ghost use Rattle.steps.specs.Handed.{held_of};
ghost use Rattle.refusals.specs.Refusals.{number_of, refusal_in};

use crate::State;
use refusals::Refusal;
use stores::lengths::{COLUMNS, ENTRIES, ROW};

// The columns of the settled rows are from 1 to m (SCOPE 11.22).
fn columns_within(order: [usize; COLUMNS], settled: usize, m: usize) -> bool
    requires { settled ≤ column_count }
    ensures { result ≡ every (λ c. leb 1 c && leb c m) (take settled order) }
{
    order[..settled]
        .iter()
        .all(|c| stores::validity::counted(*c, m))
}

// Past them the order holds 0 (SCOPE 11.22).
fn columns_unused(order: [usize; COLUMNS], settled: usize) -> bool
    requires { settled ≤ column_count }
    ensures { result ≡ every (eqb 0) (drop settled order) }
{
    order[settled..].iter().all(|c| *c == 0)
}

fn order_held(order: [usize; COLUMNS], settled: usize, m: usize) -> bool
    requires { settled ≤ column_count }
    ensures { result ≡ (every (λ c. leb 1 c && leb c m) (take settled order) && every (eqb 0) (drop settled order)) }
{
    columns_within(order, settled, m) && columns_unused(order, settled)
}

// The sizes and the number of relations are those of a run (SCOPE 11.22).
fn counts_held(sizes: stores::validity::Sizes, relations: usize) -> bool
    ensures { result ≡ (sizes_right_of (the_sizes_of sizes) && leb relations 16) }
{
    stores::validity::sizes_right(sizes) && relations <= 16
}

// No more rows are settled than there are unknowns and rows (SCOPE 11.22).
fn settled_held(settled: usize, m: usize, equations: usize) -> bool
    ensures { result ≡ (leb settled m && leb settled equations) }
{
    settled <= m && settled <= equations
}

// Every number of the state is within its range (SCOPE 11.22).
fn sizes_held(state: State) -> bool
    ensures { result ≡ Calls.sizes_held_of (held_of state) }
{
    let sizes = state.sizes;
    let settled = state.settled;
    if !counts_held(sizes, state.relations) {
        return false;
    }
    if !settled_held(settled, sizes.m, sizes.equations) {
        return false;
    }
    let order = state.order;
    if !order_held(order, settled, sizes.m) {
        return false;
    }
    state.shifts <= 6 * stores::validity::span(sizes)
}

// The columns of the settled rows, counted from 0, zeros past the last.
pub fn from_zero(order: [usize; COLUMNS], settled: usize) -> [usize; COLUMNS]
    requires { (settled ≤ column_count) × All (λ c. 1 ≤ c) (take settled order) }
    ensures { (result ≡ pad_to column_count 0 (map pred (take settled order))) × (length order ≡ column_count) }
{
    let mut columns = [0usize; COLUMNS];
    for (j, c) in order[..settled].iter().enumerate() {
        columns[j] = *c - 1;
    }
    columns
}

// Each settled row is zero at the columns before its own and not zero there: its own is the first that it meets (SCOPE 11.24).
pub fn pivots_right(rows: &[i64], order: [usize; COLUMNS], settled: usize) -> bool
    requires { (settled ≤ column_count) × (row_need settled ≤ length rows.now) × Columns order }
    ensures { result ≡ Calls.pivots_right_of order (rows_of settled rows.now) settled }
{
    for j in 0..settled {
        let row = stores::rows::row_at(rows, j * ROW);
        if working_rows::entries::first_met(&row[0..ENTRIES], order, j + 1) != j {
            return false;
        }
    }
    true
}

// Of the checks of the stores, too short a store alone is told as such (SCOPE 11.21).
fn of_state(refusal: Refusal) -> Refusal
    ensures { number_of result ≡ (if eqb (number_of refusal) 1 then 1 else 11) }
{
    match refusal {
        Refusal::ShortStore => Refusal::ShortStore,
        _ => Refusal::WrongState,
    }
}

// The first check that fails (SCOPE 11.21).
pub(crate) fn check_state(rows: &[i64], relations: &[i64], state: State) -> Result<(), Refusal>
    ensures { refusal_in result ≡ Calls.check_state_of (held_of state) rows.now relations.now }
{
    if !sizes_held(state) {
        return Err(Refusal::WrongState);
    }
    let sizes = state.sizes;
    match stores::validity::check_stores(rows, relations, sizes, state.relations) {
        Ok(()) => {}
        Err(refusal) => return Err(of_state(refusal)),
    }
    let settled = state.settled;
    let order = from_zero(state.order, settled);
    if !pivots_right(rows, order, settled) {
        return Err(Refusal::WrongState);
    }
    Ok(())
}
