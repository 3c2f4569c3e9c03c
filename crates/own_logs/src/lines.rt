// The steps of a log that the next step of our own run is (SCOPE 13.51).
ghost use Rattle.std.specs.Prelude.{◌≡◌, not, ◌∷◌, ◌++◌, ◌<◌, ◌^◌, T, pos, length};
ghost use Rattle.algebra.specs.Polynomials.{is_zero_of};
ghost use Rattle.lists.specs.Tests.{every};
ghost use Rattle.rules.specs.Calls.{zeros};
ghost use Rattle.rules.specs.Limits.{coefficient_count, column_count, most_equations, row_length, small};
ghost use Rattle.rules.specs.Rows.{entry};
ghost use Rattle.rules.specs.Rows as Rows;
ghost use Rattle.rules.specs.Stores.{row_of};
ghost use Rattle.reduction.specs.StoreExchange.{numbers_at, narrowed};
ghost use Rattle.reduction.specs.StepLaws.{met_entries};
ghost use Rattle.log_steps.specs.Kinds.{number_of};
ghost use Rattle.own_logs.specs.Contents.{content_in};
ghost use Rattle.own_logs.specs.OwnLines.{one_line, CombinationLine, Readable, Eliminated, StepLines};

use combinations::Combination;
use log_steps::kinds::Kind;
use log_steps::lengths::{G, H, STEP};
use polynomials::lengths::COEFFICIENTS;
use reduction::step::{Progress, SPAN};
use stores::lengths::{COLUMNS, ROW};

// No step of a log, one or two. Past so many the numbers say nothing.
#[derive(Clone, Copy)]
pub(crate) struct Lines {
    pub count: usize,
    pub first: [i64; STEP],
    pub second: [i64; STEP],
}

// A step without multipliers; rows are counted from 1, and a field that is not used is 0 (SCOPE 13.12).
fn plain(kind: Kind, i: usize, j: usize) -> [i64; STEP]
    requires { (i < 2 ^ 63) × (j < 2 ^ 63) }
    ensures { result ≡ pos (number_of kind) ∷ pos i ∷ pos j ∷ zeros 33 }
{
    let mut numbers = [0i64; STEP];
    numbers[0] = kind.number();
    numbers[1] = i as i64;
    numbers[2] = j as i64;
    numbers
}

// A combination (SCOPE 13.12).
fn combining(i: usize, j: usize, divisor: u64, g: &[i64], h: &[i64]) -> [i64; STEP]
    requires i_bound { (i < 2 ^ 63) × (j < 2 ^ 63) × (divisor < 2 ^ 63) }
    requires g_len { (length g.now ≡ coefficient_count) × (length h.now ≡ coefficient_count) }
    ensures { result ≡ pos 2 ∷ pos i ∷ pos j ∷ pos divisor ∷ (g.now ++ h.now) }
{
    let mut numbers = plain(Kind::Combination, i, j);
    numbers[3] = divisor as i64;
    stores::rows::save(&mut numbers, G, g);
    stores::rows::save(&mut numbers, H, h);
    numbers
}

// One step.
fn one(first: [i64; STEP]) -> Lines
    ensures { result ≡ one_line first }
{
    Lines {
        count: 1,
        first,
        second: [0; STEP],
    }
}

// The content of a combination, 0 where a degree is past 15: such a step is refused, and its integer says nothing.
fn content_of(made: Option<Combination>) -> u64
    ensures { result ≡ content_in made }
{
    match made {
        Some(whole) => whole.content,
        None => 0,
    }
}

// The combination of rows i and j with the entries in column c: the integer is its content, 1 for a zero result (SCOPE 13.51).
fn combination(i: usize, j: usize, c: usize, target: &[i64], pivot: &[i64]) -> [i64; STEP]
    requires i_lt_most_equations { (i < most_equations) × (j < most_equations) × (c < column_count) }
    requires target_len { (length target.now ≡ row_length) × (length pivot.now ≡ row_length)
        × T (every small target.now) × T (every small pivot.now) }
    requires t { T (not (is_zero_of (entry (row_of pivot.now) c ++ entry (row_of target.now) c))) }
    ensures { CombinationLine i j c (row_of target.now) (row_of pivot.now) result }
{
    let mut g = [0; COEFFICIENTS];
    let mut h = [0; COEFFICIENTS];
    reduction::step::put_multipliers_at(&mut g, &mut h, target, pivot, c);
    let content = content_of(combinations::undivided_stored(&g[..], &h[..], target, pivot));
    let divisor = if content == 0 { 1 } else { content };
    combining(i + 1, j + 1, divisor, &g[..], &h[..])
}

// The exchange of rule 2, if there is one, and the combination of the row in turn with settled row j (SCOPE 13.51).
fn elimination(rows: &[i64], j: usize, width: usize, p: Progress) -> Lines
    requires readable { Readable rows.now p × (p.settled < p.rows) × (j < p.settled)
        × (width ≡ Rows.width (row_of (numbers_at rows.now p.settled))) }
    requires t { T (not (is_zero_of (met_entries (narrowed rows.now p.settled j) p j))) }
    ensures { Eliminated rows.now p j result }
{
    let i = p.settled;
    let order = p.order;
    let c = order[j];
    let row = stores::rows::row_at(rows, i * ROW);
    let other = stores::rows::row_at(rows, j * ROW);
    if width < reduction::looking::width_at(rows, j, SPAN) {
        let first = plain(Kind::Exchange, i + 1, j + 1);
        let second = combination(i, j, c, other, row);
        return Lines {
            count: 2,
            first,
            second,
        };
    }
    one(combination(i, j, c, row, other))
}

// The steps of a log that the next step is; a row that is settled is none. If the step is refused, they say nothing (SCOPE 13.51).
pub(crate) fn step_lines(rows: &[i64], p: Progress) -> Lines
    requires { Readable rows.now p × (p.settled < p.rows) }
    ensures { StepLines rows.now p result }
{
    let i = p.settled;
    let width = reduction::looking::width_at(rows, i, SPAN);
    if width == 0 {
        return one(plain(Kind::Drop, i + 1, 0));
    }
    let order = p.order;
    let j = reduction::looking::met_at(rows, i, order, i);
    if j < i {
        return elimination(rows, j, width, p);
    }
    if reduction::looking::column_at(rows, i) < COLUMNS {
        return Lines {
            count: 0,
            first: [0; STEP],
            second: [0; STEP],
        };
    }
    one(plain(Kind::Raise, i + 1, 0))
}
