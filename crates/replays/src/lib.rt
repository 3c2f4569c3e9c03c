// The replay of a log over checked stores: its steps, one after the other, and the column order at the end (SCOPE 13.3). `replay_on` asks for
// stores that are ready, and leaves zeros where it is refused.
#![tactic(auto)]

ghost use Rattle.std.specs.Prelude.{◌≡◌, List, ℕ, ◌+◌, ◌*◌, ◌^◌, ◌≤◌, ◌<◌, ℤ, length};
ghost use Rattle.rules.specs.Limits.{column_count, most_span};
ghost use Rattle.reduction.specs.Progress.{Ready, state_of, final_answer};
ghost use Rattle.log_steps.specs.Logs as Logs;
ghost use Rattle.log_steps.specs.StoreChanges.{SteppedTo};
ghost use Rattle.log_steps.specs.Logs.{log_need};
ghost use Rattle.replays.specs.Replays.{ReplayedTo};
ghost use Rattle.replays.specs.ReplayWork.{outcome_of, WorkedTo, Left};

use given::Step;
use log_steps::lengths::{G, H, STEP};
use reduction::step::{Progress, Stop};
use refusals::Refusal;
use stores::lengths::COLUMNS;

mod ending;
mod given;

// One step: its form, then its condition, then its limits (SCOPE 13.26).
fn make_step(
    rows: &mut [i64],
    relations: &mut [i64],
    span: usize,
    x: &[i64],
    p: Progress,
) -> Result<Progress, Stop>
    requires ready { Ready rows.old relations.old p × (p.settled ≡ 0) × (span ≤ most_span) × (p.shifts < 2 ^ 32) }
    requires x_len { length x.now ≡ Logs.step_length }
    ensures { SteppedTo rows.old relations.old rows.new relations.new p result
        (Logs.changed_if span (state_of rows.old relations.old p) (Logs.change_of x.now)) }
{
    let step = match given::step_of(x) {
        Ok(step) => step,
        Err(refusal) => return Err(p.stopped(refusal)),
    };
    match step {
        Step::Exchange(i, j) => log_steps::changing::exchange_rows(rows, i, j, p),
        Step::Combination(i, j, d) => {
            log_steps::combining::combine_rows(rows, relations, i, j, d, &x[G..H], &x[H..STEP], p)
        }
        Step::Raise(i) => log_steps::changing::raise_row(rows, i, p),
        Step::Lower(i) => log_steps::changing::lower_row(rows, i, span, p),
        Step::Drop(i) => log_steps::changing::drop_row(rows, i, p),
    }
}

// Step after step, up to a refusal (SCOPE 13.3, 13.26).
fn replay_steps(
    rows: &mut [i64],
    relations: &mut [i64],
    span: usize,
    steps: usize,
    log: &[i64],
    first: Progress,
) -> Result<Progress, Stop>
    requires ready { Ready rows.old relations.old first × (first.settled ≡ 0) × (first.shifts ≡ 0) × (span ≤ most_span)
        × (steps ≤ Logs.most_steps) }
    requires steps_in_bounds { steps * Logs.step_length ≤ length log.now }
    ensures { ReplayedTo rows.old relations.old rows.new relations.new first result
        (Logs.replayed span (Logs.steps_in steps log.now) (state_of rows.old relations.old first)) }
{
    let mut p = first;
    for k in 0..steps {
        let from = k * STEP;
        let to = from + STEP;
        p = make_step(rows, relations, span, &log[from..to], p)?;
    }
    Ok(p)
}

// The steps, and then the order; nothing is cleared yet (SCOPE 13.3).
fn work(
    rows: &mut [i64],
    relations: &mut [i64],
    m: usize,
    span: usize,
    steps: usize,
    log: &[i64],
    first: Progress,
) -> Result<Progress, Stop>
    requires ready { Ready rows.old relations.old first × (first.settled ≡ 0) × (first.shifts ≡ 0) × (span ≤ most_span)
        × (steps ≤ Logs.most_steps) }
    requires m_le_column_count { (m ≤ column_count) × (log_need steps ≤ length log.now) }
    ensures { WorkedTo rows.old relations.old rows.new relations.new first result
        (outcome_of m span steps log.now (state_of rows.old relations.old first)) }
{
    let p = replay_steps(rows, relations, span, steps, log, first)?;
    let from = steps * STEP;
    let to = from + COLUMNS;
    ending::finish(rows, m, &log[from..to], p)
}

// A refused replay leaves zeros (SCOPE 13.42).
pub fn replay_on(
    rows: &mut [i64],
    relations: &mut [i64],
    m: usize,
    span: usize,
    steps: usize,
    log: &[i64],
    first: Progress,
) -> Result<Progress, Refusal>
    requires ready { Ready rows.old relations.old first × (first.settled ≡ 0) × (first.shifts ≡ 0) × (span ≤ most_span)
        × (steps ≤ Logs.most_steps) }
    requires m_le_column_count { (m ≤ column_count) × (log_need steps ≤ length log.now) }
    ensures { Left rows.old relations.old rows.new relations.new first (final_answer first.rows result)
        (outcome_of m span steps log.now (state_of rows.old relations.old first)) }
{
    match work(rows, relations, m, span, steps, log, first) {
        Ok(p) => Ok(p),
        Err(stop) => {
            reduction::run::clear(rows, relations, first.rows, stop.progress.count);
            Err(stop.refusal)
        }
    }
}
