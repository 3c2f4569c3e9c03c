// The fifth section: a right side for each equation and each relation, read into the rows and relations of stores (SCOPE 4.16).
ghost use Rattle.std.specs.Prelude.{◌≡◌, ◌&&◌, ◌+◌, ◌*◌, ◌≤◌, eqb, length, drop};
ghost use Rattle.algebra.specs.Polynomials.{is_zero_of};
ghost use Rattle.refusals.specs.Refusals.{refusal_in};
ghost use Rattle.rules.specs.Limits.{coefficient_count, most_equations, most_relations, row_length, relation_length};
ghost use Rattle.rules.specs.Stores.{rows_of, relations_of};
ghost use Rattle.rules.specs.Numbers.{field, then_read};
ghost use Rattle.rules.specs.Sheets.{after_count_of, always, judge_side_of, judge_side_count, read_side};
ghost use Rattle.tokens.specs.Fields.{FoundIn, Reads};
ghost use Rattle.reading.specs.Sides.{side_of, sides_into, side_section_of, rest_section};

use crate::terms::MOST;
use polynomials::lengths::COEFFICIENTS;
use refusals::Refusal;
use stores::lengths::{ENTRIES, RELATION, ROW};
use tokens::Found;

// A count that is not from 0 to MOST is 2 (SCOPE 4.34); then 0 is 3 where the side is needed (SCOPE 4.35).
fn judge_side(needed: bool, value: i64) -> Result<(), Refusal>
    ensures { refusal_in result ≡ judge_side_of needed value }
{
    if tokens::is_between(0, MOST, value) {
        if value != 0 {
            return Ok(());
        }
        if needed {
            return Err(Refusal::Malformed);
        }
        return Ok(());
    }
    Err(Refusal::OutOfRange)
}

fn side_count_at(bytes: &[u8], at: usize, needed: bool) -> Result<Found, Refusal>
    requires { at ≤ length bytes.now }
    ensures { FoundIn bytes.now result (field (judge_side_of needed) after_count_of (drop at bytes.now)) }
{
    tokens::any_field_at(
        bytes,
        at,
        |value| judge_side(needed, value),
        crate::counts::after_count,
    )
}

// The place after the sides that were read, and whether they and all before them are zero.
#[derive(Clone, Copy)]
pub(crate) struct SidesRead {
    pub at: usize,
    pub none: bool,
}

fn still_none(none: bool, p: &[i64]) -> bool
    ensures { result ≡ (none && is_zero_of p.now) }
{
    none && polynomials::content::is_zero(p)
}

// The number of coefficients and the coefficients, read into the numbers of a polynomial (SCOPE 4.25).
fn side_at(
    bytes: &[u8],
    at: usize,
    needed: bool,
    none: bool,
    p: &mut [i64],
) -> Result<SidesRead, Refusal>
    requires { (at ≤ length bytes.now) × (length p.old ≡ coefficient_count) }
    ensures { Reads bytes.now (λ s. (p.new, s.none)) (λ s. s.at) result
        (then_read (read_side needed (drop at bytes.now)) (side_of none)) }
{
    let k = side_count_at(bytes, at, needed)?;
    let c = crate::terms::coefficients_at(bytes, k.at, k.value as usize, 10, p)?;
    Ok(SidesRead {
        at: c,
        none: still_none(none, p),
    })
}

// The last side is needed where all before it are zero.
fn is_needed(none: bool, left: usize) -> bool
    ensures { result ≡ (none && eqb left 0) }
{
    none && left == 0
}

// `count` sides, each read into its part of `store`, a part having `width` numbers and its side standing at `from`; `others` more are to
// come, and `none` says that all before them are zero.
fn sides_at(
    bytes: &[u8],
    at: usize,
    count: usize,
    others: usize,
    none: bool,
    width: usize,
    from: usize,
    store: &mut [i64],
) -> Result<SidesRead, Refusal>
    requires at_in_bounds { (at ≤ length bytes.now) × (count ≤ most_relations) × (others ≤ most_relations) }
    requires coefficient_count_bound { (from + coefficient_count ≤ width) × (width ≤ relation_length) × (count * width ≤ length store.old) }
    ensures { Reads bytes.now (λ s. (store.new, s.none)) (λ s. s.at) result
        (sides_into width from 0 count others none store.old (drop at bytes.now)) }
{
    let mut next = at;
    let mut zero = none;
    for i in 0..count {
        let needed = is_needed(zero, count - (i + 1) + others);
        let start = i * width + from;
        let end = start + COEFFICIENTS;
        let s = side_at(bytes, next, needed, zero, &mut store[start..end])?;
        next = s.at;
        zero = s.none;
    }
    Ok(SidesRead {
        at: next,
        none: zero,
    })
}

// A number of sides other than that of the equations and relations is 2 (SCOPE 4.34); where there are none, the number 0 is 3, since
// a section of zeros only is no fifth section (SCOPE 4.35).
fn judge_total(total: usize, value: i64) -> Result<(), Refusal>
    requires { total ≤ most_equations + most_relations }
    ensures { refusal_in result ≡ judge_side_count total value }
{
    if total == 0 {
        if value == 0 {
            return Err(Refusal::Malformed);
        }
        return Err(Refusal::OutOfRange);
    }
    tokens::judge_between(total as i64, total as i64, value)
}

fn total_at(bytes: &[u8], at: usize, total: usize) -> Result<Found, Refusal>
    requires { (at ≤ length bytes.now) × (total ≤ most_equations + most_relations) }
    ensures { FoundIn bytes.now result (field (judge_side_count total) (always 10) (drop at bytes.now)) }
{
    tokens::field_at(bytes, at, 10, |value| judge_total(total, value))
}

// The number of the sides, and the sides (SCOPE 4.16).
fn side_section(
    bytes: &[u8],
    at: usize,
    equations: usize,
    count: usize,
    rows: &mut [i64],
    relations: &mut [i64],
) -> Result<usize, Refusal>
    requires at_in_bounds { (at ≤ length bytes.now) × (equations ≤ most_equations) × (count ≤ most_relations) }
    requires row_length_in_bounds { (equations * row_length ≤ length rows.old) × (count * relation_length ≤ length relations.old) }
    ensures { Reads bytes.now (λ _. (rows_of equations rows.new, relations_of count relations.new)) (λ next. next) result
        (side_section_of equations count (rows_of equations rows.old) (relations_of count relations.old)
        (drop at bytes.now)) }
{
    let k = total_at(bytes, at, equations + count)?;
    let e = sides_at(bytes, k.at, equations, count, true, ROW, ENTRIES, rows)?;
    let r = sides_at(
        bytes,
        e.at,
        count,
        0,
        e.none,
        RELATION,
        1 + ENTRIES,
        relations,
    )?;
    Ok(r.at)
}

// What stands behind the fourth section: no byte, or the fifth section and no byte behind it, which would be 4 (SCOPE 4.37).
pub(crate) fn end_at(
    bytes: &[u8],
    at: usize,
    equations: usize,
    count: usize,
    rows: &mut [i64],
    relations: &mut [i64],
) -> Result<(), Refusal>
    requires at_in_bounds { (at ≤ length bytes.now) × (equations ≤ most_equations) × (count ≤ most_relations) }
    requires row_length_in_bounds { (equations * row_length ≤ length rows.old) × (count * relation_length ≤ length relations.old) }
    ensures { Reads bytes.now (λ _. (rows_of equations rows.new, relations_of count relations.new)) (λ _. length bytes.now) result
        (rest_section equations count (rows_of equations rows.old) (relations_of count relations.old)
        (drop at bytes.now)) }
{
    if at == bytes.len() {
        return Ok(());
    }
    let s = side_section(bytes, at, equations, count, rows, relations)?;
    if s < bytes.len() {
        return Err(Refusal::WrongEnd);
    }
    Ok(())
}
