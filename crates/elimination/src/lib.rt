// The public runs on lent stores, `run_leading` and `run_trailing`, and the access to one polynomial or right side of a row
// store: no `requires`, and contracts that give the result and each lent store by equations with `rules` (SCOPE 9.1, 9.2).
#![tactic(auto)]

ghost use Rattle.std.specs.Prelude.{◌≡◌};
ghost use Rattle.rules.specs.Elimination.{leading, trailing};
ghost use Rattle.rules.specs.Calls.{call_run, polynomial_check, polynomial_part, right_side_check, right_side_part};
ghost use Rattle.stores.specs.Validity.{the_sizes_of};
ghost use Rattle.runs.specs.CallLaws.{call_of};

use polynomials::lengths::COEFFICIENTS;
use refusals::Refusal;
use sides::Side;
use stores::lengths::ROW;

mod access;

pub use runs::RunReport;

pub fn run_leading(
    rows: &mut [i64],
    relations: &mut [i64],
    sizes: stores::validity::Sizes,
    count: usize,
) -> Result<RunReport, Refusal>
    ensures { call_of result rows.new relations.new
        ≡ call_run leading (the_sizes_of sizes) count rows.old relations.old }
{
    runs::called(rows, relations, sizes, count, Side::Leading)
}

pub fn run_trailing(
    rows: &mut [i64],
    relations: &mut [i64],
    sizes: stores::validity::Sizes,
    count: usize,
) -> Result<RunReport, Refusal>
    ensures { call_of result rows.new relations.new
        ≡ call_run trailing (the_sizes_of sizes) count rows.old relations.old }
{
    runs::called(rows, relations, sizes, count, Side::Trailing)
}

// 2 where a size or the place is out of its range, otherwise 1 where the store is too short for the rows, otherwise 0
// (SCOPE 3.42, 3.43).
pub fn check_polynomial(
    rows: &[i64],
    sizes: stores::validity::Sizes,
    row: usize,
    block: i64,
    column: usize,
) -> u8
    ensures { result ≡ polynomial_check rows.now (the_sizes_of sizes) row block column }
{
    if !stores::validity::sizes_right(sizes) {
        return 2;
    }
    if !access::place_right(sizes, row, block, column) {
        return 2;
    }
    if rows.len() < sizes.equations * ROW {
        return 1;
    }
    0
}

// The part of the row store that holds one polynomial: sixteen coefficients, lowest power first; the empty part where
// the check is not 0 (SCOPE 3.41, 3.44, 8.4).
pub fn polynomial(
    rows: &[i64],
    sizes: stores::validity::Sizes,
    row: usize,
    block: i64,
    column: usize,
) -> &[i64]
    ensures { result.now ≡ polynomial_part rows.now (the_sizes_of sizes) row block column }
{
    if check_polynomial(rows, sizes, row, block, column) != 0 {
        return &rows[0..0];
    }
    let place = access::place_of(sizes, row, block, column);
    &rows[place..place + 16]
}

// 2 where a size is out of its range or there is no such row, otherwise 1 where the store is too short for the rows, otherwise 0
// (SCOPE 3.45).
pub fn check_right_side(rows: &[i64], sizes: stores::validity::Sizes, row: usize) -> u8
    ensures { result ≡ right_side_check rows.now (the_sizes_of sizes) row }
{
    if !stores::validity::sizes_right(sizes) {
        return 2;
    }
    if !stores::validity::counted(row, sizes.equations) {
        return 2;
    }
    if rows.len() < (sizes.equations * ROW) {
        return 1;
    }
    0
}

// The part of the row store that holds the right side of a row: sixteen coefficients, lowest power first; the empty part
// where the check is not 0 (SCOPE 3.45).
pub fn right_side(rows: &[i64], sizes: stores::validity::Sizes, row: usize) -> &[i64]
    ensures { result.now ≡ right_side_part rows.now (the_sizes_of sizes) row }
{
    if check_right_side(rows, sizes, row) != 0 {
        return &rows[0..0];
    }
    let place = access::side_of(row);
    &rows[place..place + COEFFICIENTS]
}
