// The sums that a row makes on a record at successive n, in a store where they stand one after the other: term by term, so that each
// polynomial is looked at once for all n (SCOPE 12.21, 12.31).
ghost use Rattle.std.specs.Prelude.{◌≡◌, ◌+◌, ◌*◌, ◌-◌, ◌≤◌, ◌<◌, T, pos, nat_abs, ◌+ℤ◌, ◌*ℤ◌, length, get_or};
ghost use Rattle.lists.specs.Tests.{every};
ghost use Rattle.rules.specs.Limits.{small, column_count, polynomial_count, row_length, most_span};
ghost use Rattle.rules.specs.Stores.{row_of};
ghost use Rattle.evaluation.specs.Evaluated.{farthest, value_limit};
ghost use Rattle.records.specs.Records as Records;
ghost use Rattle.records.specs.RecordSums.{block_room};
ghost use Rattle.records.specs.Terms.{shape_length, count_place, Fine};
ghost use Rattle.records.specs.Successive.{NumbersThere, SumsNear, ZerosAt, Kept, Added, AddedAnywhere, Known, left_sum};

use crate::terms;
use crate::terms::{COUNT, RIGHT_END, SHAPE, TERM};
use stores::lengths::ENTRIES;

// As many n are tested at most, one for each vector (SCOPE 12.11, 12.22).
pub const TESTS: usize = 64;

// An entry's product with the number of its column, added to a sum.
fn plus(sum: i64, value: i64, number: i64) -> i64
    requires { (nat_abs sum ≤ 5 * block_room) × (nat_abs value ≤ value_limit) × (nat_abs number ≤ Records.value_bound) }
    ensures { result ≡ sum +ℤ value *ℤ number }
{
    sum + value * number
}

// The products of a constant with its numbers, one at each of `count` successive n, added to the sums, which stand from `at` on; its
// numbers stand from `from` on, each m behind the last. At how many n are they formed? At all.
fn with_constant(
    sums: &mut [i64],
    at: usize,
    count: usize,
    p: &[i64],
    values: &[i64],
    from: usize,
    m: usize,
) -> usize
    requires t { T (every small p.now) × (length p.now ≡ 1) }
    requires t_2 { T (Records.values_right_of values.now) × NumbersThere values.now from m count }
    requires sums_near { SumsNear sums.old at count }
    ensures { AddedAnywhere p.now values.now from m at count sums.old result sums.new }
{
    let a = p[0];
    for j in 0..count {
        let place = at + j;
        sums[place] = plus(sums[place], a, values[from + j * m]);
    }
    count
}

// The same of a polynomial, by its values, up to the first n at which a value is past the limit. At how many n are they formed?
fn with_term(
    sums: &mut [i64],
    at: usize,
    count: usize,
    p: &[i64],
    n: i64,
    values: &[i64],
    from: usize,
    m: usize,
) -> usize
    requires t { T (every small p.now) × (nat_abs n + count ≤ farthest) }
    requires t_2 { T (Records.values_right_of values.now) × NumbersThere values.now from m count }
    requires sums_near { SumsNear sums.old at count }
    ensures { Added n p.now values.now from m at count sums.old result sums.new }
{
    if p.len() == 1 {
        return with_constant(sums, at, count, p, values, from, m);
    }
    for j in 0..count {
        let Some(value) = evaluation::evaluate(p, n + j as i64) else {
            return j;
        };
        let place = at + j;
        sums[place] = plus(sums[place], value, values[from + j * m]);
    }
    count
}

// The sums of a row's terms at successive n, in places that hold 0; the numbers that the first n meets are counted from `base` on. At how
// many n are they formed?
fn left_sums(
    sums: &mut [i64],
    at: usize,
    tests: usize,
    row: &[i64],
    shape: &[usize],
    n: i64,
    values: &[i64],
    base: usize,
    m: usize,
) -> usize
    requires t { T (every small row.now) × (length row.now ≡ row_length) × (nat_abs n + tests ≤ farthest) }
    requires t_2 { T (Records.values_right_of values.now) × (length shape.now ≡ shape_length) }
    requires count_place_bound { (get_or shape.now count_place 0 ≤ polynomial_count)
        × Fine row_length (length values.now - (base + (tests - 1) * m)) shape.now (get_or shape.now count_place 0) }
    requires zeros_at { ZerosAt sums.old at tests }
    ensures { Kept at tests sums.old sums.new
        × Known (left_sum n row.now values.now base m shape.now (get_or shape.now count_place 0))
        tests at sums.new result }
{
    let count = shape[COUNT];
    let mut formed = tests;
    for k in 0..count {
        let place = k * TERM;
        let from = shape[place];
        let end = shape[place + 1];
        formed = with_term(
            sums,
            at,
            formed,
            &row[from..end],
            n,
            values,
            base + shape[place + 2],
            m,
        );
    }
    formed
}

// The sums of a row at successive n, at the first of which block l meets vector `top`: the right side is evaluated last and subtracted
// (SCOPE 12.21). At how many n are they formed?
pub(crate) fn row_sums(
    sums: &mut [i64],
    at: usize,
    tests: usize,
    row: &[i64],
    n: i64,
    values: &[i64],
    top: usize,
    m: usize,
    span: usize,
) -> usize
    requires t { T (every small row.now) × (length row.now ≡ row_length) × (nat_abs n + tests ≤ farthest) }
    requires t_2 { T (Records.values_right_of values.now) × ((top + tests) * m ≤ length values.now)
        × (m ≤ column_count) × (span ≤ most_span) × (span ≤ top) × (0 < tests) }
    requires zeros_at { ZerosAt sums.old at tests }
    ensures { Kept at tests sums.old sums.new
        × Known (λ j. Records.row_sum_of m span values.now (top + j) (row_of row.now) (n +ℤ pos j))
        tests at sums.new result }
{
    let mut shape = [0usize; SHAPE];
    terms::row_shape(&mut shape, row, m, span);
    let formed = left_sums(sums, at, tests, row, &shape, n, values, (top - span) * m, m);
    let end = shape[RIGHT_END];
    let minus = [-1i64; 1];
    with_term(sums, at, formed, &row[ENTRIES..end], n, &minus, 0, 0)
}
