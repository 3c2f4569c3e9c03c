// Terms: the derivative k, the power j, the column c and the factor a (SCOPE 10.5), each judged as it is read (SCOPE 10.11).
ghost use Rattle.std.specs.Prelude.{◌≡◌, ◌≤◌, leb, nat_abs, length, drop};
ghost use Rattle.rules.specs.Numbers.{field};
ghost use Rattle.rules.specs.Sheets.{always};
ghost use Rattle.refusals.specs.Refusals.{refusal_in};
ghost use Rattle.tokens.specs.Fields.{FoundIn, Reads};
ghost use Rattle.differential.specs.Differential.{factor_bound};
ghost use Rattle.differential.specs.Grammar.{judge_ordered_of, judge_factor_of, first_power_of, first_column_of, read_term};
ghost use Rattle.differential.specs.Read.{extent_of, term_of, FewNumbers, SmallExtent, SmallBefore, read_place};

use crate::extent::Extent;
use refusals::Refusal;
use tokens::Found;

// No factor passes this in size (SCOPE 10.5).
const FACTOR: i64 = 1048576;

// A term that was read, and the place after it.
#[derive(Clone, Copy, Debug, PartialEq, Eq)]
pub(crate) struct TermRead {
    pub at: usize,
    pub derivative: usize,
    pub power: usize,
    pub column: usize,
    pub factor: i64,
}

// A number that is not from `low` to `high` is 2 (SCOPE 10.12); then one that is not from `first` to `last` breaks the order of terms:
// 3 (SCOPE 10.13).
fn judge_ordered(
    low: usize,
    high: usize,
    first: usize,
    last: usize,
    value: i64,
) -> Result<(), Refusal>
    requires { FewNumbers low high first last }
    ensures { refusal_in result ≡ judge_ordered_of low high first last value }
{
    if !tokens::is_between(low as i64, high as i64, value) {
        return Err(Refusal::OutOfRange);
    }
    if !tokens::is_between(first as i64, last as i64, value) {
        return Err(Refusal::Malformed);
    }
    Ok(())
}

fn ordered_at(
    bytes: &[u8],
    at: usize,
    low: usize,
    high: usize,
    first: usize,
    last: usize,
) -> Result<Found, Refusal>
    requires { (at ≤ length bytes.now) × FewNumbers low high first last }
    ensures { FoundIn bytes.now result (field (judge_ordered_of low high first last) (always 32) (drop at bytes.now)) }
{
    tokens::field_at(
        bytes,
        at,
        32,
        |value| judge_ordered(low, high, first, last, value),
    )
}

fn factor_small(value: i64) -> bool
    ensures { result ≡ leb (nat_abs value) factor_bound }
{
    -FACTOR <= value && value <= FACTOR
}

// A factor past its bound is 5 (SCOPE 10.12), and one that is 0 is 3 (SCOPE 10.13).
fn judge_factor(value: i64) -> Result<(), Refusal>
    ensures { refusal_in result ≡ judge_factor_of value }
{
    if !factor_small(value) {
        return Err(Refusal::PastBound);
    }
    if value == 0 {
        return Err(Refusal::Malformed);
    }
    Ok(())
}

fn factor_at(bytes: &[u8], at: usize, separator: u8) -> Result<Found, Refusal>
    requires { at ≤ length bytes.now }
    ensures { FoundIn bytes.now result (field judge_factor_of (always separator) (drop at bytes.now)) }
{
    tokens::field_at(bytes, at, separator, judge_factor)
}

// The lowest power that may follow the term before, at derivative k (SCOPE 10.6).
fn first_power(before: TermRead, k: usize) -> usize
    ensures { result ≡ first_power_of (term_of before) k }
{
    if k < before.derivative {
        0
    } else {
        before.power
    }
}

// The lowest column that may follow it, at derivative k and power j (SCOPE 10.6).
fn first_column(before: TermRead, k: usize, j: usize) -> usize
    requires { SmallBefore (term_of before) }
    ensures { result ≡ first_column_of (term_of before) k j }
{
    if k < before.derivative {
        return 1;
    }
    if before.power < j {
        return 1;
    }
    before.column + 1
}

// The derivative, the power and the column of a term; they stand in a term whose factor is 0.
fn place_at(bytes: &[u8], x: Extent, before: TermRead) -> Result<TermRead, Refusal>
    requires { (before.at ≤ length bytes.now) × SmallExtent (extent_of x) × SmallBefore (term_of before) }
    ensures { Reads bytes.now (λ t. term_of t) (λ t. t.at) result (read_place (extent_of x) (term_of before) (drop before.at bytes.now)) }
{
    let k = ordered_at(bytes, before.at, 0, x.order, 0, before.derivative)?;
    let derivative = k.value as usize;
    let lowest = first_power(before, derivative);
    let j = ordered_at(bytes, k.at, 0, x.degree, lowest, x.degree)?;
    let power = j.value as usize;
    let leftmost = first_column(before, derivative, power);
    let c = ordered_at(bytes, j.at, 1, x.unknowns, leftmost, x.unknowns)?;
    Ok(TermRead {
        at: c.at,
        derivative,
        power,
        column: c.value as usize,
        factor: 0,
    })
}

// The term behind the term before, whose place in the bytes it carries on from.
pub(crate) fn term_at(
    bytes: &[u8],
    x: Extent,
    before: TermRead,
    separator: u8,
) -> Result<TermRead, Refusal>
    requires { (before.at ≤ length bytes.now) × SmallExtent (extent_of x) × SmallBefore (term_of before) }
    ensures { Reads bytes.now (λ t. term_of t) (λ t. t.at) result (read_term (extent_of x) (term_of before) separator (drop before.at bytes.now)) }
{
    let q = place_at(bytes, x, before)?;
    let a = factor_at(bytes, q.at, separator)?;
    Ok(TermRead {
        at: a.at,
        factor: a.value,
        ..q
    })
}
