// The elimination of constant rows by rules 2, 4 and 5 (SCOPE 14.4), on the rows of a lent store, 64 numbers a row. `eliminate` asks for rows
// within ±C, and leaves the settled ones in front.
#![tactic(auto)]

ghost use Rattle.std.specs.Prelude.{◌≡◌, ◌≢◌, [], ◌+◌, ◌*◌, ◌^◌, ◌≤◌, ◌<◌, T, pos, nat_abs, ◌+ℤ◌, ◌*ℤ◌, length, get_or, take};
ghost use Rattle.lists.specs.Tests.{every};
ghost use Rattle.rules.specs.Limits.{bound, small};
ghost use Rattle.polynomials.specs.Content.{Below};
ghost use Rattle.sides.specs.Lent.{Kept};
ghost use Rattle.echelon.specs.Eliminated as Elimination;
ghost use Rattle.constant_rows.specs.Matrices.{matrix_rows, Told, judged_with};
ghost use Rattle.echelon.specs.MatrixTurns.{pivots_in, row_at, count_after, columns_after, store_after};
ghost use Rattle.echelon.specs.RowWork.{column_found};
ghost use Rattle.constant_rows.specs.ListLengths.{list_columns, most_rows, matrix_need};
ghost use Rattle.echelon.specs.SoundRows.{Sound};

use constant_rows::lengths::LIST_COLUMNS;
use refusals::Refusal;

// Rule 2's g and h.
#[derive(Drop)]
struct Factors {
    g: i64,
    h: i64,
}

// g = a/d and h = -b/d, d the greatest whole number that divides both; g is positive (SCOPE 14.42).
fn factors_of(a: i64, b: i64) -> Factors
    requires { (nat_abs a ≤ bound) × (nat_abs b ≤ bound) × (a ≢ pos 0) }
    ensures { (result.g ≡ (Elimination.the_factors_of a b).g) × (result.h ≡ (Elimination.the_factors_of a b).h) }
{
    let d = integers::gcd(integers::magnitude(a), integers::magnitude(b)) as i64;
    let g = integers::quotient(a, d);
    let h = integers::quotient(b, d);
    if a < 0 {
        Factors {
            g: integers::negated(g),
            h,
        }
    } else {
        Factors {
            g,
            h: integers::negated(h),
        }
    }
}

// g·a + h·b: below 2^57, so it fits.
fn combination(g: i64, a: i64, h: i64, b: i64) -> i64
    requires { (nat_abs g ≤ bound) × (nat_abs a ≤ bound) × (nat_abs h ≤ bound) × (nat_abs b ≤ bound) }
    ensures { result ≡ g *ℤ a +ℤ h *ℤ b }
{
    g * a + h * b
}

// g × row + h × pivot in the place of the row (SCOPE 14.42).
fn combine(row: &mut [i64], pivot: &[i64], g: i64, h: i64)
    requires row_len { (length row.old ≡ length pivot.now) × T (every small row.old) × T (every small pivot.now) }
    requires g_bound { (nat_abs g ≤ bound) × (nat_abs h ≤ bound) }
    ensures { row.new ≡ Elimination.combined (record { g = g; h = h }) row.old pivot.now }
{
    for (j, b) in pivot.iter().enumerate() {
        row[j] = combination(g, row[j], h, *b);
    }
}

// Divided by the greatest whole number that divides all of it; a zero row stays (SCOPE 14.43).
fn divide_by_content(row: &mut [i64])
    requires { Below (2 ^ 63) row.old }
    ensures { row.new ≡ Elimination.whole row.old }
{
    let d = polynomials::content::content(row);
    if 1 < d {
        polynomials::content::divide_in_place(row, d as i64);
    }
}

// Where the row has a nonzero entry at the settled row's column, the combination takes its place, if it is within ±C (SCOPE 14.42, 14.43).
fn reduce_by(row: &mut [i64], pivot: &[i64], column: usize) -> Result<(), Refusal>
    requires row_len { (length row.old ≡ length pivot.now) × T (every small row.old) × T (every small pivot.now) }
    requires column_in_bounds { (column < length row.old) × (get_or pivot.now column (pos 0) ≢ pos 0) }
    ensures { Elimination.reduce_by_of (record { numbers = pivot.now; column = column }) row.old
        ≡ judged_with result row.new }
{
    let b = row[column];
    if b == 0 {
        return Ok(());
    }
    let x = factors_of(pivot[column], b);
    combine(row, pivot, x.g, x.h);
    divide_by_content(row);
    if !stores::checks::all_small(row) {
        return Err(Refusal::CoefficientPassed);
    }
    Ok(())
}

// With each settled row, in their order, as long as each combination is within ±C.
fn reduce_all(row: &mut [i64], matrix: &[i64], columns: &[usize]) -> Result<(), Refusal>
    requires row_len_bound { (length row.old ≤ list_columns) × (length columns.now * list_columns ≤ length matrix.now) }
    requires t { T (every small row.old) × Sound (length row.old) (pivots_in (length row.old) columns.now matrix.now) }
    ensures { Elimination.reduce_all_of (pivots_in (length row.old) columns.now matrix.now)
        row.old ≡ judged_with result row.new }
{
    let n = row.len();
    for (k, column) in columns.iter().enumerate() {
        let from = k * LIST_COLUMNS;
        let to = from + n;
        reduce_by(row, &matrix[from..to], *column)?;
    }
    Ok(())
}

// The first column with a nonzero entry, or the number of columns where there is none (SCOPE 14.44).
fn first_column(row: &[i64]) -> usize
    ensures { Elimination.first_at row.now ≡ column_found (length row.now) result }
{
    row.iter().position(|a| *a != 0).unwrap_or(row.len())
}

// Row i of the store behind the settled rows, in lent numbers, as long as each combination is within ±C.
fn reduced_row(
    matrix: &[i64],
    n: usize,
    i: usize,
    columns: &[usize],
    numbers: &mut [i64],
) -> Result<(), Refusal>
    requires n_le_list_columns { (n ≤ list_columns) × (i * list_columns + list_columns ≤ length matrix.now) × T (every small (row_at n i matrix.now)) }
    requires list_columns_in_bounds { (length columns.now * list_columns ≤ length matrix.now) × Sound n (pivots_in n columns.now matrix.now)
        × (length numbers.old ≡ list_columns) }
    ensures matrix_value { Elimination.reduce_all_of (pivots_in n columns.now matrix.now) (row_at n i matrix.now)
        ≡ judged_with result (take n numbers.new) }
    ensures numbers_len { length numbers.new ≡ list_columns }
{
    let from = i * LIST_COLUMNS;
    let to = from + n;
    stores::rows::save(numbers, 0, &matrix[from..to]);
    reduce_all(&mut numbers[..n], matrix, columns)
}

// What an elimination leaves: the number of the settled rows, which are the first of the store, and their columns.
#[derive(Drop)]
pub struct Eliminated {
    pub settled: usize,
    pub columns: [usize; LIST_COLUMNS],
}

// A row that is not zero is settled at its first column with a nonzero entry, in the place behind the settled rows; a zero row is dropped
// (SCOPE 14.44). How many are settled then?
fn settle(matrix: &mut [i64], row: &[i64], settled: usize, columns: &mut [usize]) -> usize
    requires row_len_bound { (length row.now ≤ list_columns) × (settled * list_columns + list_columns ≤ length matrix.old) }
    requires columns_len { (length columns.old ≡ list_columns) × (count_after settled (Elimination.first_at row.now) ≤ list_columns) }
    ensures value { (result ≡ count_after settled (Elimination.first_at row.now))
        × (columns.new ≡ columns_after settled columns.old (Elimination.first_at row.now)) }
    ensures matrix_after { matrix.new
        ≡ store_after settled row.now matrix.old (Elimination.first_at row.now) }
{
    let column = first_column(row);
    if column < row.len() {
        stores::rows::save(matrix, settled * LIST_COLUMNS, row);
        columns[settled] = column;
        return settled + 1;
    }
    settled
}

// The rows in their order, each behind the settled ones (SCOPE 14.41). A row is settled in a place that is not behind its own, so no row
// is overwritten before its turn. It is refused where a number passes ±C.
pub fn eliminate(matrix: &mut [i64], n: usize, count: usize) -> Result<Eliminated, Refusal>
    requires { (n ≤ list_columns) × (count ≤ most_rows) × (matrix_need ≤ length matrix.old)
        × T (every (every small) (matrix_rows n count matrix.old)) }
    ensures reports { Told (λ e ps. (e.settled ≡ length ps) × (e.settled ≤ n) × (length e.columns ≡ list_columns)
        × (pivots_in n (take e.settled e.columns) matrix.new ≡ ps))
        (Elimination.eliminate [] (matrix_rows n count matrix.old)) result }
    ensures kept { Kept matrix_need matrix.old matrix.new }
{
    let mut settled = 0;
    let mut columns = [0usize; LIST_COLUMNS];
    let mut numbers = [0i64; LIST_COLUMNS];
    for i in 0..count {
        reduced_row(matrix, n, i, &columns[..settled], &mut numbers)?;
        settled = settle(matrix, &numbers[..n], settled, &mut columns);
    }
    Ok(Eliminated { settled, columns })
}
