// The terms of a row: its polynomials in use that are not zero, and how many coefficients each has, found once for all n. A zero polynomial
// adds nothing to a sum, and zeros at the top of another leave its value as it is (SCOPE 12.21, 12.31).
ghost use Rattle.std.specs.Prelude.{◌≡◌, ◌+◌, ◌*◌, ◌-◌, ◌≤◌, ◌<◌, length, take, drop};
ghost use Rattle.rules.specs.Limits.{coefficient_count, column_count, polynomial_count, block_length, row_length, most_span};
ghost use Rattle.records.specs.Terms.{shape_length, with_product, columns_added, Listed, BlocksListed, Shaped};

use polynomials::lengths::COEFFICIENTS;
use stores::lengths::{BLOCK, ENTRIES, POLYNOMIALS};

// A term: where its polynomial begins in the row, where its coefficients end, the last being not 0, and which of the numbers that the
// row's blocks meet multiplies it, those of the lowest block first.
pub const TERM: usize = 3;

// Behind the terms stands how many there are.
pub const COUNT: usize = POLYNOMIALS * TERM;

// Behind that, where the coefficients of the right side end.
pub const RIGHT_END: usize = COUNT + 1;

// The numbers of a row's shape.
pub const SHAPE: usize = RIGHT_END + 1;

// The term of the polynomial from a place on, behind the others; it counts unless the polynomial is zero. How many there are then?
fn column_term(shape: &mut [usize], row: &[i64], from: usize, number: usize, count: usize) -> usize
    requires coefficient_count_in_bounds { (from + coefficient_count ≤ length row.now) × (length row.now ≡ row_length) }
    requires shape_len { (length shape.old ≡ shape_length) × (count < polynomial_count) }
    ensures { Listed row.now shape.old count shape.new result 1 (number + 1)
        (λ n values base s. with_product n values (base + number) (take coefficient_count (drop from row.now)) s) }
{
    let to = from + COEFFICIENTS;
    let used = evaluation::used(&row[from..to]);
    let at = count * TERM;
    shape[at] = from;
    shape[at + 1] = from + used;
    shape[at + 2] = number;
    if used == 0 { count } else { count + 1 }
}

// The terms of a block's m columns: its numbers stand from `at` on, those of its vector are counted from `number` on.
fn block_terms(
    shape: &mut [usize],
    row: &[i64],
    at: usize,
    m: usize,
    number: usize,
    before: usize,
) -> usize
    requires block_length_in_bounds { (at + block_length ≤ length row.now) × (length row.now ≡ row_length) × (m ≤ column_count) × (number ≤ polynomial_count) }
    requires shape_len { (length shape.old ≡ shape_length) × (before + m ≤ polynomial_count) }
    ensures { Listed row.now shape.old before shape.new result m (number + m)
        (columns_added row.now at number m) }
{
    let mut count = before;
    for c in 0..m {
        count = column_term(shape, row, at + c * COEFFICIENTS, number + c, count);
    }
    count
}

// The terms of the blocks from l down to t; the numbers of the lowest block are the first.
fn left_terms(shape: &mut [usize], row: &[i64], m: usize, span: usize) -> usize
    requires { (length row.now ≡ row_length) × (m ≤ column_count) × (span ≤ most_span) × (length shape.old ≡ shape_length) }
    ensures { BlocksListed m span row.now shape.new result (span + 1) }
{
    let mut count = 0;
    for b in 0..=span {
        count = block_terms(shape, row, b * BLOCK, m, (span - b) * m, count);
    }
    count
}

// The shape of a row.
pub(crate) fn row_shape(shape: &mut [usize], row: &[i64], m: usize, span: usize)
    requires { (length row.now ≡ row_length) × (m ≤ column_count) × (span ≤ most_span) × (length shape.old ≡ shape_length) }
    ensures { Shaped m span row.now shape.new }
{
    let count = left_terms(shape, row, m, span);
    let right = evaluation::used(&row[ENTRIES..]);
    shape[COUNT] = count;
    shape[RIGHT_END] = ENTRIES + right;
}
