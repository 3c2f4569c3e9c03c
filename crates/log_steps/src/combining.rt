// The combination of two rows by the multipliers and the integer of a log's step.
ghost use Rattle.std.specs.Prelude.{◌≡◌, true, List, ℕ, ◌^◌, ◌≤◌, ◌<◌, T, ℤ, pos, nat_abs, length, IfOk};
ghost use Rattle.std.specs.Int.Signed.{lt_z, quot_z, rem_z};
ghost use Rattle.algebra.specs.Gcd.{divide_by};
ghost use Rattle.lists.specs.Tests.{every};
ghost use Rattle.rules.specs.Limits.{row_length, small, coefficient_count};
ghost use Rattle.rules.specs.Rows.{coefficients_of};
ghost use Rattle.rules.specs.Rows as Rows;
ghost use Rattle.rules.specs.Stores.{row_of};
ghost use Rattle.polynomials.specs.Content.{Below};
ghost use Rattle.working_rows.specs.Working.{Full};
ghost use Rattle.working_rows.specs.Worked.{Shown};
ghost use Rattle.reduction.specs.Progress.{Ready, state_of};
ghost use Rattle.reduction.specs.StoreExchange.{numbers_at};
ghost use Rattle.log_steps.specs.Logs.{combining, combine_rows_of, changed, divides_all};
ghost use Rattle.log_steps.specs.Divisions.{sum_of, combined};
ghost use Rattle.log_steps.specs.StoreChanges.{SteppedTo};
ghost use Rattle.log_steps.specs.StoreCombinations.{new_row, judged_row, quotient_of, Judged};

use polynomials::lengths::COEFFICIENTS;
use reduction::step::{Progress, Stop};
use refusals::Refusal;
use sides::Side;
use stores::lengths::ROW;
use working_rows::WorkingRow;

// The coefficients of a product of two polynomials.
const PRODUCT: usize = COEFFICIENTS + COEFFICIENTS - 1;

// The polynomials of a row: the right side is the last.
const PARTS: usize = ROW / COEFFICIENTS;

// Does d divide every coefficient of g·p + h·q, also those past power 15? (SCOPE 13.22)
fn divides_sum(d: i64, g: &[i64], p: &[i64], h: &[i64], q: &[i64]) -> bool
    requires d_nonzero { 0 < nat_abs d }
    requires g_len_bound { (length g.now ≤ coefficient_count) × T (every small g.now) × (length p.now ≤ coefficient_count) × T (every small p.now) }
    requires h_len_bound { (length h.now ≤ coefficient_count) × T (every small h.now) × (length q.now ≤ coefficient_count) × T (every small q.now) }
    ensures { result ≡ divides_all (nat_abs d) (sum_of g.now p.now h.now q.now) }
{
    for k in 0..PRODUCT {
        let a = products::combined_coefficient(g, p, h, q, k);
        if integers::remainder(a, d) != 0 {
            return false;
        }
    }
    true
}

// Does d divide every coefficient of g × target + h × pivot, on both sides? (SCOPE 13.22)
fn divides_combination(d: i64, g: &[i64], h: &[i64], target: &[i64], pivot: &[i64]) -> bool
    requires d_nonzero { 0 < nat_abs d }
    requires g_len { (length g.now ≡ coefficient_count) × T (every small g.now) × (length h.now ≡ coefficient_count) × T (every small h.now) }
    requires target_len { (length target.now ≡ row_length) × (length pivot.now ≡ row_length)
        × T (every small target.now) × T (every small pivot.now) }
    ensures { result ≡ divides_all (nat_abs d)
        (coefficients_of (combined g.now h.now target.now pivot.now)) }
{
    for e in 0..PARTS {
        let from = e * COEFFICIENTS;
        let to = from + COEFFICIENTS;
        if !divides_sum(d, g, &target[from..to], h, &pivot[from..to]) {
            return false;
        }
    }
    true
}

// Zero costs no division.
fn quotient(a: i64, d: i64) -> i64
    requires { (nat_abs a < 2 ^ 63) × (0 < nat_abs d) }
    ensures { result ≡ quot_z a d }
{
    if a == 0 {
        return 0;
    }
    integers::quotient(a, d)
}

fn remainder(a: i64, d: i64) -> i64
    requires { (nat_abs a < 2 ^ 63) × (0 < nat_abs d) }
    ensures { result ≡ rem_z a d }
{
    if a == 0 {
        return 0;
    }
    integers::remainder(a, d)
}

// Every number divided by d, where it stands, up to the first that d does not divide: does d divide them all? (SCOPE 13.22) By 1, the most
// common integer, the numbers stay.
fn divide_exactly(numbers: &mut [i64], d: i64) -> bool
    requires { Below (2 ^ 63) numbers.old × T (lt_z (pos 0) d) }
    ensures value { result ≡ divides_all (nat_abs d) numbers.old }
    ensures numbers_after { result ≡ true → numbers.new ≡ divide_by (nat_abs d) numbers.old }
{
    if d == 1 {
        return true;
    }
    for number in numbers.iter_mut() {
        let a = *number;
        if remainder(a, d) != 0 {
            return false;
        }
        *number = quotient(a, d);
    }
    true
}

// A row divided by d, unless d does not divide every coefficient; a coefficient past ±C is refused with 8 (SCOPE 13.22, 13.26). The
// division keeps the width.
fn exact_quotient(row: WorkingRow, d: i64) -> Option<Result<WorkingRow, Refusal>>
    requires full { Full row × (row.width ≡ Rows.width (row_of row.entries)) × T (lt_z (pos 0) d) }
    requires below { Below (2 ^ 63) row.entries × Below (2 ^ 63) row.right }
    ensures { Judged result (quotient_of (nat_abs d) row) }
{
    let mut entries = row.entries;
    let mut right = row.right;
    if !divide_exactly(&mut entries, d) {
        return None;
    }
    if !divide_exactly(&mut right, d) {
        return None;
    }
    if !stores::checks::all_small(&entries[..]) {
        return Some(Err(Refusal::CoefficientPassed));
    }
    if !stores::checks::all_small(&right[..]) {
        return Some(Err(Refusal::CoefficientPassed));
    }
    Some(Ok(WorkingRow {
        entries,
        right,
        width: row.width,
    }))
}

// The row (g × target + h × pivot) / d, unless d does not divide every coefficient, also those past power 15. A degree past 15 is refused
// with 7 (SCOPE 13.22, 13.26). The division does not change a degree, so the degrees are looked at first.
fn divided_row(
    d: i64,
    g: &[i64],
    h: &[i64],
    target: &[i64],
    pivot: &[i64],
) -> Option<Result<WorkingRow, Refusal>>
    requires t { T (lt_z (pos 0) d) }
    requires g_len { (length g.now ≡ coefficient_count) × T (every small g.now) × (length h.now ≡ coefficient_count) × T (every small h.now) }
    requires target_len { (length target.now ≡ row_length) × (length pivot.now ≡ row_length)
        × T (every small target.now) × T (every small pivot.now) }
    ensures { Judged result (judged_row (nat_abs d) g.now h.now target.now pivot.now) }
{
    match combinations::undivided_stored(g, h, target, pivot) {
        Some(u) => exact_quotient(u.row, d),
        None => {
            if !divides_combination(d, g, h, target, pivot) {
                return None;
            }
            Some(Err(Refusal::DegreePassed))
        }
    }
}

// Row i, as it is, is listed at the roots of g, ascending; more than 16 relations are refused with 9. Then the new row takes its place, or
// the limit that it breaks is the refusal (SCOPE 13.26, 13.27).
fn combine_allowed(
    rows: &mut [i64],
    relations: &mut [i64],
    i: usize,
    g: &[i64],
    worked: Result<WorkingRow, Refusal>,
    p: Progress,
) -> Result<Progress, Stop>
    requires ready { Ready rows.old relations.old p × (p.settled ≡ 0) × (i < p.rows) }
    requires g_len { (length g.now ≡ coefficient_count) × T (every small g.now) × IfOk worked Full }
    ensures { (j d : ℕ) (h : List ℤ) → j < p.rows
        → Shown worked (new_row d g.now h (numbers_at rows.old i) (numbers_at rows.old j))
        → SteppedTo rows.old relations.old rows.new relations.new p result
        (combine_rows_of (state_of rows.old relations.old p) i j d g.now h) }
{
    let found = multiplicities::roots_with(g);
    let count = p.count + found.count;
    if 16 < count {
        return Err(p.stopped(Refusal::TooManyRelations));
    }
    let row = stores::rows::row_at(rows, i * ROW);
    sides::listing::list_roots(relations, p.count, found, Side::Leading, row);
    reduction::step::put_limited(rows, i, worked, Progress { count, ..p })
}

// Row i becomes (g × row i + h × row j) / d, with g not zero and d a divisor of all of it (SCOPE 13.22).
pub fn combine_rows(
    rows: &mut [i64],
    relations: &mut [i64],
    i: usize,
    j: usize,
    d: i64,
    g: &[i64],
    h: &[i64],
    p: Progress,
) -> Result<Progress, Stop>
    requires ready { Ready rows.old relations.old p × (p.settled ≡ 0) × T (lt_z (pos 0) d) }
    requires g_len { (length g.now ≡ coefficient_count) × T (every small g.now) × (length h.now ≡ coefficient_count) × T (every small h.now) }
    ensures { (D : ℕ) → SteppedTo rows.old relations.old rows.new relations.new p result
        (changed D (state_of rows.old relations.old p)
        (combining i j (nat_abs d) g.now h.now)) }
{
    if !crate::changing::two_rows(i, j, p.rows) {
        return Err(p.stopped(Refusal::WrongLog));
    }
    if polynomials::content::is_zero(g) {
        return Err(p.stopped(Refusal::WrongLog));
    }
    let target = stores::rows::row_at(rows, i * ROW);
    let pivot = stores::rows::row_at(rows, j * ROW);
    match divided_row(d, g, h, target, pivot) {
        None => Err(p.stopped(Refusal::WrongLog)),
        Some(worked) => combine_allowed(rows, relations, i, g, worked, p),
    }
}
