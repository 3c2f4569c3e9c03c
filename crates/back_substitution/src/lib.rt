// The listed sequences: one for each column that is left without a pivot, by back substitution (SCOPE 14.5). `list_sequences` asks for
// settled rows within ±C and for a list store of zeros.
#![tactic(auto)]

ghost use Rattle.std.specs.Prelude.{◌≡◌, ◌≢◌, not, ◌+◌, ◌*◌, ◌≤◌, ◌<◌, T, eqb, pos, nat_abs, length, take, drop, get_or};
ghost use Rattle.algebra.specs.Gcd as Gcd;
ghost use Rattle.algebra.specs.Polynomials as Polynomials;
ghost use Rattle.lists.specs.Everywhere.{All};
ghost use Rattle.lists.specs.Overwritten.{overwrite};
ghost use Rattle.lists.specs.Tests.{every};
ghost use Rattle.rules.specs.Calls.{zeros};
ghost use Rattle.rules.specs.Limits.{bound, small};
ghost use Rattle.refusals.specs.Refusals.{refusal_in};
ghost use Rattle.sides.specs.Lent.{Kept};
ghost use Rattle.echelon.specs.KernelKept.{Echelon};
ghost use Rattle.back_substitution.specs.Listed as Listed;
ghost use Rattle.echelon.specs.MatrixTurns.{pivots_in};
ghost use Rattle.constant_rows.specs.Matrices.{Told};
ghost use Rattle.constant_rows.specs.ListLengths.{list_columns, list_need, matrix_need};
ghost use Rattle.back_substitution.specs.Listed.{list_store_of};
ghost use Rattle.back_substitution.specs.BackSubstitution.{pivot_at, Settled, FreeColumn, MetBelow, Filled};
ghost use Rattle.back_substitution.specs.ListRows.{Placed, Written, Stepped, count_in};

use constant_rows::lengths::LIST_COLUMNS;
use refusals::Refusal;

// The sum of the products of a row's entries with the numbers of a vector: at most 64 C², so it fits (SCOPE 14.52).
fn row_sum(row: &[i64], v: &[i64]) -> i64
    requires row_len { (length row.now ≡ length v.now) × (length row.now ≤ list_columns) }
    requires t { T (every small row.now) × T (every small v.now) }
    ensures value { result ≡ Listed.dot row.now v.now }
    ensures result_bound { nat_abs result ≤ list_columns * (bound * bound) }
{
    let mut sum = 0;
    for (i, a) in row.iter().enumerate() {
        sum += *a * v[i];
    }
    sum
}

// The column of no settled row (SCOPE 14.51).
fn is_free(columns: &[usize], column: usize) -> bool
    ensures { result ≡ every (λ c. not (eqb c column)) columns.now }
{
    for c in columns {
        if *c == column {
            return false;
        }
    }
    true
}

// A vector within ±C so many times, where it stands: at most C², so it fits.
fn multiply(v: &mut [i64], times: i64)
    requires { T (every small v.old) × (nat_abs times ≤ bound) }
    ensures { v.new ≡ Polynomials.scale times v.old }
{
    for a in v.iter_mut() {
        *a = times * *a;
    }
}

// The greatest common divisor of a pivot and a sum: no larger than the pivot, which is nonzero.
fn common_divisor(d: i64, s: i64) -> i64
    requires { (d ≢ pos 0) × (nat_abs d ≤ bound) }
    ensures value { result ≡ pos (Gcd.gcd (nat_abs d) (nat_abs s)) }
    ensures result_nonzero { 0 < nat_abs result }
{
    integers::gcd(integers::magnitude(d), integers::magnitude(s)) as i64
}

// The value at the pivot's column: its sign is turned where the pivot is positive (SCOPE 14.52).
fn solved(d: i64, s: i64, common: i64) -> i64
    requires s_bound { (nat_abs s ≤ list_columns * (bound * bound)) × (0 < nat_abs common) }
    requires common_value { common ≡ pos (Gcd.gcd (nat_abs d) (nat_abs s)) }
    ensures { result ≡ Listed.solved d s }
{
    let q = integers::quotient(s, common);
    if integers::is_negative(d) {
        q
    } else {
        integers::negated(q)
    }
}

// One step of the back substitution where the sum is not 0: the vector is taken |d| / gcd (d, S) times, so that it keeps no common divisor
// (SCOPE 14.52).
fn substitute(row: &[i64], column: usize, s: i64, v: &mut [i64])
    requires row_len { (length row.now ≡ length v.old) × (column < length row.now) }
    requires t { T (every small row.now) × T (every small v.old) × (get_or row.now column (pos 0) ≢ pos 0) }
    requires s_value { (s ≡ Listed.dot row.now v.old) × (nat_abs s ≤ list_columns * (bound * bound)) }
    ensures { v.new ≡ Listed.substitute (pivot_at row.now column) v.old }
{
    let d = row[column];
    let common = common_divisor(d, s);
    multiply(v, integers::quotient(integers::magnitude(d) as i64, common));
    v[column] = solved(d, s, common);
}

// One step of the back substitution. Is the vector within ±C behind it? Where the sum is 0, the value is 0 and all others stay.
fn substituted(row: &[i64], column: usize, v: &mut [i64]) -> bool
    requires row_len { (length row.now ≡ length v.old) × (length row.now ≤ list_columns) × (column < length row.now) }
    requires t { T (every small row.now) × T (every small v.old) × (get_or row.now column (pos 0) ≢ pos 0) }
    ensures value { result ≡ every small v.new }
    ensures v_after { v.new ≡ Listed.substitute (pivot_at row.now column) v.old }
{
    let s = row_sum(row, v);
    if s == 0 {
        v[column] = 0;
        return true;
    }
    substitute(row, column, s, v);
    stores::checks::all_small(v)
}

// How many settled rows there are up to the last that meets a column, none if no row does. Behind it the back substitution leaves the
// vector with 1 at that column and 0 elsewhere as it is, and most vectors are never met.
fn rows_meeting(matrix: &[i64], count: usize, f: usize) -> usize
    requires { (count * list_columns ≤ length matrix.now) × (f < list_columns) }
    ensures { MetBelow matrix.now f count result }
{
    for i in (0..count).rev() {
        if matrix[i * LIST_COLUMNS + f] != 0 {
            return i + 1;
        }
    }
    0
}

// Back through the settled rows, from the last that meets the column; a value past ±C on the way leads to one past ±C at the end
// (SCOPE 14.52, 14.53).
fn substitute_all(matrix: &[i64], n: usize, columns: &[usize], f: usize, v: &mut [i64]) -> bool
    requires n_le_list_columns { (n ≤ list_columns) × (f < n) × (v.old ≡ Listed.unit n f) × (length columns.now * list_columns ≤ length matrix.now) }
    requires free_column { FreeColumn n (pivots_in n columns.now matrix.now) f }
    ensures { Filled result (Listed.vector_at n (pivots_in n columns.now matrix.now) f) v.new }
{
    let met = rows_meeting(matrix, columns.len(), f);
    for i in (0..met).rev() {
        let from = i * LIST_COLUMNS;
        let to = from + n;
        if !substituted(&matrix[from..to], columns[i], v) {
            return false;
        }
    }
    true
}

// The sequence of a free column in row k of the list, whose numbers are 0 before (SCOPE 14.51, 14.63).
fn list_at(
    matrix: &[i64],
    n: usize,
    columns: &[usize],
    f: usize,
    list: &mut [i64],
    k: usize,
) -> bool
    requires n_le_list_columns { (n ≤ list_columns) × (f < n) × (k < list_columns) × (length columns.now * list_columns ≤ length matrix.now) }
    requires list_need_in_bounds { (list_need ≤ length list.old) × (take n (drop (k * list_columns) list.old) ≡ zeros n) }
    requires free_column { FreeColumn n (pivots_in n columns.now matrix.now) f }
    ensures { Placed n k result (Listed.vector_at n (pivots_in n columns.now matrix.now) f)
        list.old list.new }
{
    let from = k * LIST_COLUMNS;
    let to = from + n;
    list[from + f] = 1;
    substitute_all(matrix, n, columns, f, &mut list[from..to])
}

// One column more: with a pivot it is passed over, without one its sequence is listed or refused. How many are listed then (SCOPE 14.51,
// 14.53)?
fn list_column(
    matrix: &[i64],
    n: usize,
    columns: &[usize],
    f: usize,
    list: &mut [i64],
    count: usize,
) -> Result<usize, Refusal>
    requires n_le_list_columns { (n ≤ list_columns) × (f < n) × (length columns.now * list_columns ≤ length matrix.now)
        × (list_need ≤ length list.old) }
    requires settled { Settled n (pivots_in n columns.now matrix.now) }
    requires written { Written n (pivots_in n columns.now matrix.now) f count list.old }
    ensures stepped { Stepped n (pivots_in n columns.now matrix.now) f (refusal_in result) (count_in result) list.new }
    ensures kept { Kept list_need list.old list.new }
{
    if !is_free(columns, f) {
        return Ok(count);
    }
    if !list_at(matrix, n, columns, f, list, count) {
        return Err(Refusal::CoefficientPassed);
    }
    Ok(count + 1)
}

// The list in its store, one sequence a row, in the order of the columns. How many are there (SCOPE 14.51, 14.53, 14.63)?
pub fn list_sequences(
    matrix: &[i64],
    n: usize,
    settled: usize,
    columns: [usize; LIST_COLUMNS],
    list: &mut [i64],
) -> Result<usize, Refusal>
    requires n_le_list_columns { (n ≤ list_columns) × (settled ≤ n) × (matrix_need ≤ length matrix.now) × (length columns ≡ list_columns) }
    requires echelon { Echelon n (pivots_in n (take settled columns) matrix.now)
        × All (λ p. T (every small p.numbers) × (p.column < n)) (pivots_in n (take settled columns) matrix.now) }
    requires list_need_in_bounds { (list_need ≤ length list.old) × (take list_need list.old ≡ zeros list_need) }
    ensures reports { Told (λ count l. (count ≡ length l) × (list.new ≡ overwrite (list_store_of l) list.old))
        (Listed.sequences n (pivots_in n (take settled columns) matrix.now)) result }
    ensures kept { Kept list_need list.old list.new }
{
    let all = &columns[..];
    let used = &all[..settled];
    let mut count = 0;
    for f in 0..n {
        count = list_column(matrix, n, used, f, list, count)?;
    }
    Ok(count)
}
