// The order line: the number of its columns, at most m, and so many different columns of 1 to m (SCOPE 4.15).
ghost use Rattle.std.specs.Prelude.{◌≡◌, [], ◌≤◌, length, drop};
ghost use Rattle.refusals.specs.Refusals.{refusal_in};
ghost use Rattle.rules.specs.Limits.{column_count};
ghost use Rattle.rules.specs.Numbers.{field};
ghost use Rattle.rules.specs.Sheets.{read_columns, read_order, always, contains, judge_order_of};
ghost use Rattle.tokens.specs.Fields.{FoundIn, Reads};
ghost use Rattle.reading.specs.OrderLine.{taken_of};
ghost use Rattle.reading.specs.Terms.{padded};

use refusals::Refusal;
use stores::lengths::COLUMNS;
use tokens::Found;

// Is c one of the first `taken` columns of the order?
fn is_taken(order: &[usize], taken: usize, c: usize) -> bool
    requires { taken ≤ length order.now }
    ensures { result ≡ contains c (taken_of order.now taken) }
{
    order[..taken].contains(&c)
}

// A column that is not from 1 to m, or stands there already, is 2 (SCOPE 4.34).
fn judge_order(m: usize, order: &[usize], taken: usize, value: i64) -> Result<(), Refusal>
    requires { (m ≤ 4) × (taken ≤ length order.now) }
    ensures { refusal_in result ≡ judge_order_of m (taken_of order.now taken) value }
{
    if tokens::is_between(1, m as i64, value) {
        if is_taken(order, taken, value as usize) {
            return Err(Refusal::OutOfRange);
        }
        return Ok(());
    }
    Err(Refusal::OutOfRange)
}

fn order_column_at(
    bytes: &[u8],
    at: usize,
    m: usize,
    order: &[usize],
    taken: usize,
    separator: u8,
) -> Result<Found, Refusal>
    requires { (at ≤ length bytes.now) × ((m ≤ 4) × (taken ≤ length order.now)) }
    ensures { FoundIn bytes.now result (field (judge_order_of m (taken_of order.now taken)) (always separator) (drop at bytes.now)) }
{
    tokens::field_at(
        bytes,
        at,
        separator,
        |value| judge_order(m, order, taken, value),
    )
}

// The columns of an order, zeros past them, and the place after them.
#[derive(Clone, Copy)]
pub(crate) struct OrderRead {
    pub at: usize,
    pub order: [usize; COLUMNS],
}

fn columns_at(bytes: &[u8], at: usize, m: usize, count: usize) -> Result<OrderRead, Refusal>
    requires { (at ≤ length bytes.now) × ((m ≤ 4) × (count ≤ 4)) }
    ensures { Reads bytes.now (λ o. o.order) (λ o. o.at) result
        (padded column_count 0 (read_columns m count [] (drop at bytes.now))) }
{
    let mut order: [usize; COLUMNS] = [0; COLUMNS];
    let mut next = at;
    for i in 0..count {
        let separator = crate::counts::parting(count - (i + 1));
        let c = order_column_at(bytes, next, m, &order, i, separator)?;
        order[i] = c.value as usize;
        next = c.at;
    }
    Ok(OrderRead { at: next, order })
}

// The count, 0 to m, and so many columns (SCOPE 4.15).
pub(crate) fn order_at(bytes: &[u8], at: usize, m: usize) -> Result<OrderRead, Refusal>
    requires { (at ≤ length bytes.now) × (m ≤ 4) }
    ensures { Reads bytes.now (λ o. o.order) (λ o. o.at) result
        (padded column_count 0 (read_order m (drop at bytes.now))) }
{
    let k = crate::counts::count_at(bytes, at, m as i64)?;
    columns_at(bytes, k.at, m, k.value as usize)
}
