// Terms: block, column, the number of coefficients, and those from power 0 on (SCOPE 4.22).
ghost use Rattle.std.specs.Prelude.{◌≡◌, ◌≤◌, length, drop, pos};
ghost use Rattle.refusals.specs.Refusals.{refusal_in};
ghost use Rattle.rules.specs.Limits.{coefficient_count};
ghost use Rattle.rules.specs.Numbers.{field};
ghost use Rattle.rules.specs.Sheets.{judge_last_of, judge_block_of, judge_column_of, always, read_coefficients};
ghost use Rattle.tokens.specs.Fields.{FoundIn, Reads};
ghost use Rattle.stores.specs.Validity.{the_sizes_of};
ghost use Rattle.reading.specs.Terms.{judge_coefficient_of, read_coefficient, padded, read_place, read_polynomial};

use polynomials::lengths::COEFFICIENTS;
use refusals::Refusal;
use tokens::Found;

// The most coefficients of a term or a side.
pub(crate) const MOST: i64 = COEFFICIENTS as i64;

// A last coefficient past ±C is 5 (SCOPE 4.34), one that is 0 is 3 (SCOPE 4.24, 4.35).
fn judge_last(value: i64) -> Result<(), Refusal>
    ensures { refusal_in result ≡ judge_last_of value }
{
    if integers::within_bound(value) {
        if value == 0 {
            return Err(Refusal::Malformed);
        }
        return Ok(());
    }
    Err(Refusal::PastBound)
}

// Out of range is 2 (SCOPE 4.34); then a block that rises, or a column that does not rise within its block, is 3
// (SCOPE 4.23, 4.35). The term before stood at block `before` and column `last`.
fn judge_block(z: stores::validity::Sizes, before: i64, s: i64) -> Result<(), Refusal>
    ensures { refusal_in result ≡ judge_block_of (the_sizes_of z) before s }
{
    if tokens::is_between(z.t, z.l, s) {
        if s <= before {
            return Ok(());
        }
        return Err(Refusal::Malformed);
    }
    Err(Refusal::OutOfRange)
}

fn judge_column(
    z: stores::validity::Sizes,
    before: i64,
    last: usize,
    s: i64,
    c: i64,
) -> Result<(), Refusal>
    requires { (z.m ≤ 4) × (last ≤ 4) }
    ensures { refusal_in result ≡ judge_column_of (the_sizes_of z) before last s c }
{
    if tokens::is_between(1, z.m as i64, c) {
        if s < before {
            return Ok(());
        }
        if (last as i64) < c {
            return Ok(());
        }
        return Err(Refusal::Malformed);
    }
    Err(Refusal::OutOfRange)
}

// A coefficient after which `left` others are to come: only the last of them must not be 0.
fn judge_coefficient(left: usize, value: i64) -> Result<(), Refusal>
    ensures { refusal_in result ≡ judge_coefficient_of left value }
{
    if left == 0 {
        return judge_last(value);
    }
    tokens::judge_small(value)
}

fn block_at(
    bytes: &[u8],
    at: usize,
    z: stores::validity::Sizes,
    before: i64,
) -> Result<Found, Refusal>
    requires { at ≤ length bytes.now }
    ensures { FoundIn bytes.now result (field (judge_block_of (the_sizes_of z) before) (always 32) (drop at bytes.now)) }
{
    tokens::field_at(bytes, at, 32, |s| judge_block(z, before, s))
}

fn column_at(
    bytes: &[u8],
    at: usize,
    z: stores::validity::Sizes,
    before: i64,
    last: usize,
    s: i64,
) -> Result<Found, Refusal>
    requires { (at ≤ length bytes.now) × ((z.m ≤ 4) × (last ≤ 4)) }
    ensures { FoundIn bytes.now result (field (judge_column_of (the_sizes_of z) before last s) (always 32) (drop at bytes.now)) }
{
    tokens::field_at(bytes, at, 32, |c| judge_column(z, before, last, s, c))
}

// A coefficient after which `left` others are to come, of more than one digit. What `digits_at` reads is not 0.
fn long_coefficient_at(
    bytes: &[u8],
    at: usize,
    left: usize,
    separator: u8,
) -> Result<Found, Refusal>
    requires { at ≤ length bytes.now }
    ensures { FoundIn bytes.now result (field (judge_coefficient_of left) (always separator) (drop at bytes.now)) }
{
    let Some(d) = tokens::digits_at(bytes, at, separator) else {
        return tokens::any_field_at(
            bytes,
            at,
            |value| judge_coefficient(left, value),
            |_| separator,
        );
    };
    tokens::judge_small(d.value)?;
    Ok(d)
}

// A coefficient after which `left` others are to come; `last` stands after the last.
fn coefficient_at(bytes: &[u8], at: usize, left: usize, last: u8) -> Result<Found, Refusal>
    requires { at ≤ length bytes.now }
    ensures { FoundIn bytes.now result (read_coefficient last left (drop at bytes.now)) }
{
    let separator = crate::counts::mark_after(last, left);
    let Some(d) = tokens::digit_at(bytes, at, separator) else {
        return long_coefficient_at(bytes, at, left, separator);
    };
    judge_coefficient(left, d.value)?;
    Ok(d)
}

// The coefficients of a term, read into the numbers of a polynomial, zeros past them.
pub(crate) fn coefficients_at(
    bytes: &[u8],
    at: usize,
    count: usize,
    last: u8,
    p: &mut [i64],
) -> Result<usize, Refusal>
    requires at_in_bounds { (at ≤ length bytes.now) × (count ≤ coefficient_count) }
    requires p_len { length p.old ≡ coefficient_count }
    ensures { Reads bytes.now (λ _. p.new) (λ next. next) result
        (padded coefficient_count (pos 0) (read_coefficients last count (drop at bytes.now))) }
{
    stores::rows::clear(p, 0, COEFFICIENTS);
    let mut next = at;
    for i in 0..count {
        let a = coefficient_at(bytes, next, count - (i + 1), last)?;
        p[i] = a.value;
        next = a.at;
    }
    Ok(next)
}

// The number of coefficients (1 to MOST) and the coefficients (SCOPE 4.22).
pub(crate) fn polynomial_at(
    bytes: &[u8],
    at: usize,
    separator: u8,
    p: &mut [i64],
) -> Result<usize, Refusal>
    requires at_in_bounds { at ≤ length bytes.now }
    requires p_len { length p.old ≡ coefficient_count }
    ensures { Reads bytes.now (λ _. p.new) (λ next. next) result (read_polynomial separator (drop at bytes.now)) }
{
    let k = tokens::number_between(bytes, at, 1, MOST, 32)?;
    coefficients_at(bytes, k.at, k.value as usize, separator, p)
}

// The block and the column of a term, and the place after them.
#[derive(Clone, Copy)]
pub(crate) struct PlaceRead {
    pub at: usize,
    pub block: i64,
    pub column: usize,
}

// The term before stood at block `before` and column `last`.
pub(crate) fn place_at(
    bytes: &[u8],
    at: usize,
    z: stores::validity::Sizes,
    before: i64,
    last: usize,
) -> Result<PlaceRead, Refusal>
    requires { (at ≤ length bytes.now) × ((z.m ≤ 4) × (last ≤ 4)) }
    ensures { Reads bytes.now (λ q. (q.block, q.column)) (λ q. q.at) result (read_place (the_sizes_of z) before last (drop at bytes.now)) }
{
    let s = block_at(bytes, at, z, before)?;
    let c = column_at(bytes, s.at, z, before, last, s.value)?;
    Ok(PlaceRead {
        at: c.at,
        block: s.value,
        column: c.value as usize,
    })
}
