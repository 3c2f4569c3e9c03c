// The steps of a log that need no multipliers, over the lent row store: the exchange of two rows, the shifts, the drop of a row.
ghost use Rattle.std.specs.Prelude.{◌≡◌, MatchResult, ◌&&◌, not, List, [], ℕ, ◌+◌, ◌*◌, ◌^◌, ◌≤◌, ◌<◌, ltb, eqb, ℤ, length, get_or};
ghost use Rattle.rules.specs.Limits.{row_length, most_span};
ghost use Rattle.rules.specs.Rows.{zero_block, zero_row};
ghost use Rattle.rules.specs.Rows as Rows;
ghost use Rattle.rules.specs.Stores.{row_of};
ghost use Rattle.reduction.specs.Progress.{Ready, state_of};
ghost use Rattle.reduction.specs.StoreExchange.{numbers_at};
ghost use Rattle.log_steps.specs.Logs.{exchanging, raising, lowering, dropping, changed};
ghost use Rattle.log_steps.specs.StoreChanges.{Begun, SteppedTo, Losing, Unlost};
ghost use Rattle.refusals.specs.declared.Refusal.TheVariants.{WrongLog};

use reduction::step::{Progress, SPAN, Stop};
use refusals::Refusal;
use stores::lengths::{BLOCK, ROW};
use working_rows::WorkingRow;

// Are two rows present and different? (SCOPE 13.21, 13.22)
pub(crate) fn two_rows(i: usize, j: usize, rows: usize) -> bool
    ensures { result ≡ ((ltb i rows && ltb j rows) && not (eqb i j)) }
{
    if rows <= i {
        return false;
    }
    if rows <= j {
        return false;
    }
    i != j
}

// Is a block of row i zero?
fn block_zero(rows: &[i64], i: usize, block: usize) -> bool
    requires { (i * row_length + row_length ≤ length rows.now) × (block ≤ most_span) }
    ensures { result ≡ zero_block (get_or (row_of (numbers_at rows.now i)).blocks block []) }
{
    let from = block * BLOCK;
    let to = from + BLOCK;
    let row = stores::rows::row_at(rows, i * ROW);
    polynomials::content::is_zero(&row[from..to])
}

// Is row i zero, on both sides?
fn row_zero(rows: &[i64], i: usize) -> bool
    requires { i * row_length + row_length ≤ length rows.now }
    ensures { result ≡ zero_row (row_of (numbers_at rows.now i)) }
{
    polynomials::content::is_zero(stores::rows::row_at(rows, i * ROW))
}

// The width of row i (SCOPE 2.1).
fn width_of(rows: &[i64], i: usize) -> usize
    requires { i * row_length + row_length ≤ length rows.now }
    ensures { result ≡ Rows.width (row_of (numbers_at rows.now i)) }
{
    reduction::looking::width_at(rows, i, SPAN)
}

// Rows i and j change places (SCOPE 13.21).
pub fn exchange_rows(rows: &mut [i64], i: usize, j: usize, p: Progress) -> Result<Progress, Stop>
    requires { Begun rows.old p }
    ensures { (D : ℕ) (relations : List ℤ) → Ready rows.old relations p
        → SteppedTo rows.old relations rows.new relations p result
        (changed D (state_of rows.old relations p) (exchanging i j)) }
{
    if !two_rows(i, j, p.rows) {
        return Err(p.stopped(Refusal::WrongLog));
    }
    let width = width_of(rows, i);
    let other = width_of(rows, j);
    reduction::exchanging::exchange(rows, i, j, width, other);
    Ok(p)
}

// Row i, if it is present and the block that a shift takes from it is zero (SCOPE 13.23, 13.24).
fn row_losing(rows: &[i64], i: usize, block: usize, p: Progress) -> Result<WorkingRow, Stop>
    requires { Begun rows.now p × (block ≤ most_span) }
    ensures { MatchResult result (Losing rows.now p i block) (λ e. (e ≡ record { refusal = WrongLog; progress = p }) × Unlost rows.now p i block) }
{
    if p.rows <= i {
        return Err(p.stopped(Refusal::WrongLog));
    }
    if !block_zero(rows, i, block) {
        return Err(p.stopped(Refusal::WrongLog));
    }
    let width = width_of(rows, i);
    Ok(working_rows::stored::load(rows, i * ROW, width))
}

// Row i is shifted up, and the shift is counted (SCOPE 13.23).
pub fn raise_row(rows: &mut [i64], i: usize, p: Progress) -> Result<Progress, Stop>
    requires { Begun rows.old p × (p.shifts < 2 ^ 32) }
    ensures { (D : ℕ) (relations : List ℤ) → Ready rows.old relations p
        → SteppedTo rows.old relations rows.new relations p result
        (changed D (state_of rows.old relations p) (raising i)) }
{
    let row = row_losing(rows, i, 0, p)?;
    let next = Progress {
        shifts: p.shifts + 1,
        ..p
    };
    reduction::step::put_limited(rows, i, working_rows::shifting::shifted(row), next)
}

// Row i is shifted down, which is not counted (SCOPE 13.24).
pub fn lower_row(rows: &mut [i64], i: usize, span: usize, p: Progress) -> Result<Progress, Stop>
    requires { Begun rows.old p × (span ≤ most_span) }
    ensures { (relations : List ℤ) → Ready rows.old relations p
        → SteppedTo rows.old relations rows.new relations p result
        (changed span (state_of rows.old relations p) (lowering i)) }
{
    let row = row_losing(rows, i, span, p)?;
    reduction::step::put_limited(rows, i, crate::lowering::lowered(row), p)
}

// Row i is left out, and the later rows move up (SCOPE 13.25).
pub fn drop_row(rows: &mut [i64], i: usize, p: Progress) -> Result<Progress, Stop>
    requires { Begun rows.old p }
    ensures { (D : ℕ) (relations : List ℤ) → Ready rows.old relations p
        → SteppedTo rows.old relations rows.new relations p result
        (changed D (state_of rows.old relations p) (dropping i)) }
{
    if p.rows <= i {
        return Err(p.stopped(Refusal::WrongLog));
    }
    if !row_zero(rows, i) {
        return Err(p.stopped(Refusal::WrongLog));
    }
    let last = p.rows - 1;
    reduction::dropping::move_up(rows, i * ROW, (last - i) * ROW);
    stores::rows::clear(rows, last * ROW, ROW);
    Ok(Progress { rows: last, ..p })
}
