// The checks before a sheet is written: sizes with count and order (2), lengths (1), numbers (5) (SCOPE 3.31, 4.53).
ghost use Rattle.std.specs.Prelude.{◌≡◌, eqb, length};
ghost use Rattle.lists.specs.Tests.{every};
ghost use Rattle.rules.specs.SheetCalls.{different_columns_of, order_given, order_right_of, check_write_of};
ghost use Rattle.refusals.specs.Refusals.{refusal_in};
ghost use Rattle.stores.specs.Validity.{the_sizes_of};

use refusals::Refusal;

fn all_zero(numbers: &[usize]) -> bool
    ensures { result ≡ every (eqb 0) numbers.now }
{
    numbers.iter().all(|n| *n == 0)
}

// Columns of 1..m, each once (SCOPE 4.53).
pub fn different_columns(columns: &[usize], m: usize) -> bool
    ensures { result ≡ different_columns_of m columns.now }
{
    for (i, c) in columns.iter().enumerate() {
        if *c < 1 || m < *c || columns[i + 1..].contains(c) {
            return false;
        }
    }
    true
}

// The number of columns that are written: those before the first 0 (SCOPE 4.15, 4.53).
fn columns_given(order: &[usize]) -> usize
    ensures { result ≡ length (order_given order.now) }
{
    order.iter().position(|c| *c == 0).unwrap_or(order.len())
}

pub fn order_length(order: [usize; 4]) -> usize
    ensures { result ≡ length (order_given order) }
{
    columns_given(&order[..])
}

fn order_right(order: [usize; 4], m: usize) -> bool
    ensures { result ≡ order_right_of m order }
{
    let n = order_length(order);
    let all = &order[..];
    different_columns(&all[..n], m) && all_zero(&all[n..])
}

// Sizes (2), lengths (1), numbers (5) in turn (SCOPE 3.31); the order argument is one of the sizes (SCOPE 4.53).
pub fn check_write(
    rows: &[i64],
    relations: &[i64],
    sizes: stores::validity::Sizes,
    count: usize,
    order: [usize; 4],
) -> Result<(), Refusal>
    ensures { refusal_in result ≡ check_write_of (the_sizes_of sizes) count order rows.now relations.now }
{
    if !stores::validity::sizes_right(sizes) || !order_right(order, sizes.m) {
        return Err(Refusal::OutOfRange);
    }
    stores::validity::check_stores(rows, relations, sizes, count)
}
