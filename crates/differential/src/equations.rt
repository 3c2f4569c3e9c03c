// Equations: the number of terms and then the terms (SCOPE 10.4), each added into the numbers of a row as it is read.
ghost use Rattle.std.specs.Prelude.{◌≡◌, ◌*◌, ◌≤◌, length, drop, pos};
ghost use Rattle.rules.specs.Limits.{row_length, most_equations};
ghost use Rattle.rules.specs.Calls.{zeros};
ghost use Rattle.rules.specs.Stores.{row_of, rows_of};
ghost use Rattle.tokens.specs.Fields.{Reads};
ghost use Rattle.differential.specs.Grammar.{most_of, no_term_of};
ghost use Rattle.differential.specs.Read.{extent_of, term_of, SmallExtent};
ghost use Rattle.differential.specs.Rows.{read_row, terms_row, most_count};
ghost use Rattle.reading.specs.Sections.{read_each};

use crate::extent::Extent;
use crate::terms::TermRead;
use refusals::Refusal;
use stores::lengths::ROW;

// What an equation's first term follows, at the place where that term begins.
fn no_term_yet(at: usize, x: Extent) -> TermRead
    ensures { (result.at ≡ at) × (term_of result ≡ no_term_of (extent_of x)) }
{
    TermRead {
        at,
        derivative: x.order,
        power: 0,
        column: 0,
        factor: 0,
    }
}

// `count` terms, each added into the numbers of a row that is zero.
fn terms_at(
    bytes: &[u8],
    at: usize,
    x: Extent,
    count: usize,
    row: &mut [i64],
) -> Result<usize, Refusal>
    requires at_in_bounds { (at ≤ length bytes.now) × (SmallExtent (extent_of x) × (count ≤ most_count)) }
    requires row_value { row.old ≡ zeros row_length }
    ensures { Reads bytes.now (λ _. row_of row.new) (λ next. next) result (terms_row (extent_of x) count (drop at bytes.now)) }
{
    let mut before = no_term_yet(at, x);
    for i in 0..count {
        let separator = reading::counts::parting(count - i - 1);
        before = crate::terms::term_at(bytes, x, before, separator)?;
        crate::rows::add_term(row, x.order, before);
    }
    Ok(before.at)
}

// An equation has at most m × (K + 1) × (J + 1) terms (SCOPE 10.4).
fn most_terms(x: Extent) -> i64
    requires { SmallExtent (extent_of x) }
    ensures { result ≡ pos (most_of (extent_of x)) }
{
    (x.unknowns * (x.order + 1) * (x.degree + 1)) as i64
}

// The number of terms and then the terms, added into the numbers of a row that is zero.
fn equation_at(bytes: &[u8], at: usize, x: Extent, row: &mut [i64]) -> Result<usize, Refusal>
    requires at_in_bounds { (at ≤ length bytes.now) × SmallExtent (extent_of x) }
    requires row_value { row.old ≡ zeros row_length }
    ensures { Reads bytes.now (λ _. row_of row.new) (λ next. next) result (read_row (extent_of x) (drop at bytes.now)) }
{
    let k = reading::counts::count_at(bytes, at, most_terms(x))?;
    terms_at(bytes, k.at, x, k.value as usize, row)
}

// So many equations, read into the rows of `rows` (SCOPE 10.3). Kept beside that of `reading`: a closure for the equation read would be lent
// each row, and needs a longer contract than both.
pub(crate) fn equations_at(
    bytes: &[u8],
    at: usize,
    x: Extent,
    equations: usize,
    rows: &mut [i64],
) -> Result<usize, Refusal>
    requires at_in_bounds { (at ≤ length bytes.now) × SmallExtent (extent_of x) }
    requires equations_le_most_equations { (equations ≤ most_equations) × (rows.old ≡ zeros (equations * row_length)) }
    ensures { Reads bytes.now (λ _. rows_of equations rows.new) (λ next. next) result
        (read_each (read_row (extent_of x)) equations (drop at bytes.now)) }
{
    let mut next = at;
    for i in 0..equations {
        let from = i * ROW;
        let to = from + ROW;
        next = equation_at(bytes, next, x, &mut rows[from..to])?;
    }
    Ok(next)
}
