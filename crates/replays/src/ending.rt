// The end of a replay: the column order and the triangular form.
ghost use Rattle.std.specs.Prelude.{◌≡◌, List, map, ◌≤◌, ℤ, pos, nat_abs, length};
ghost use Rattle.std.specs.Int.Signed.{le_z};
ghost use Rattle.lists.specs.Tests.{every};
ghost use Rattle.rules.specs.Limits.{column_count};
ghost use Rattle.reduction.specs.Answer.{told, progress_at, run_answer};
ghost use Rattle.reduction.specs.Progress.{Ready, state_of};
ghost use Rattle.log_steps.specs.Logs as Logs;
ghost use Rattle.log_steps.specs.StoreChanges.{Begun};
ghost use Rattle.replays.specs.Endings.{Ended};

use reduction::step::{Progress, Stop};
use refusals::Refusal;
use stores::lengths::COLUMNS;

fn none_negative(numbers: &[i64]) -> bool
    ensures { result ≡ every (le_z (pos 0)) numbers.now }
{
    numbers.iter().all(|n| 0 <= *n)
}

// The four numbers without their signs.
fn sizes_of(numbers: &[i64]) -> [usize; COLUMNS]
    requires { length numbers.now ≡ column_count }
    ensures { result ≡ map nat_abs numbers.now }
{
    [
        integers::magnitude(numbers[0]) as usize,
        integers::magnitude(numbers[1]) as usize,
        integers::magnitude(numbers[2]) as usize,
        integers::magnitude(numbers[3]) as usize,
    ]
}

// The first w of the four numbers are different columns from 1 to m, and the others are 0 (SCOPE 13.31).
fn order_holds(m: usize, w: usize, numbers: &[i64], named: [usize; COLUMNS]) -> bool
    requires { (m ≤ column_count) × (length numbers.now ≡ column_count) × (named ≡ map nat_abs numbers.now) }
    ensures { result ≡ Logs.order_holds_of m w numbers.now }
{
    if m < w {
        return false;
    }
    if !none_negative(numbers) {
        return false;
    }
    let all = &named[..];
    if !writing::writer::checks::different_columns(&all[..w], m) {
        return false;
    }
    polynomials::content::is_zero(&numbers[w..])
}

// What is accepted has the columns of the log (SCOPE 13.3, 13.31, 13.32).
pub(crate) fn finish(rows: &[i64], m: usize, numbers: &[i64], p: Progress) -> Result<Progress, Stop>
    requires { Begun rows.now p × (m ≤ column_count) × (length numbers.now ≡ column_count) }
    ensures { (relations : List ℤ) → Ready rows.now relations p
        → Ended rows.now relations p (run_answer (told result) (progress_at result))
        (Logs.ordered m numbers.now (state_of rows.now relations p)) }
{
    let w = p.rows;
    let named = sizes_of(numbers);
    if !order_holds(m, w, numbers, named) {
        return Err(p.stopped(Refusal::WrongLog));
    }
    let order = steps::checks::from_zero(named, w);
    if !steps::checks::pivots_right(rows, order, w) {
        return Err(p.stopped(Refusal::WrongLog));
    }
    Ok(Progress {
        settled: w,
        order,
        ..p
    })
}
