// Our own run with the log that it writes, on checked stores (SCOPE 13.5): `run` makes the run and writes the steps, `close` the end of the log.
#![tactic(auto)]

ghost use Rattle.std.specs.Prelude.{◌≡◌, ◌++◌, map, ◌+◌, ◌*◌, ◌≤◌, pos, length, take};
ghost use Rattle.std.proofs.Math.Seq.{paste};
ghost use Rattle.lists.specs.Everywhere.{All};
ghost use Rattle.rules.specs.Limits.{most_equations, column_count};
ghost use Rattle.rules.specs.Elimination as Elimination;
ghost use Rattle.rules.specs.Stores.{rows_of, relations_of, row_need};
ghost use Rattle.sides.specs.Lent.{Within, Listing};
ghost use Rattle.refusals.specs.Refusals.{refusal_in};
ghost use Rattle.reduction.specs.Answer.{run_answer};
ghost use Rattle.reduction.specs.Progress.{most_steps, Came, final_answer};
ghost use Rattle.reduction.specs.Ran.{Ran, run_of};
ghost use Rattle.log_steps.specs.Logs.{step_length};
ghost use Rattle.log_steps.specs.Logs.{own_need};
ghost use Rattle.own_logs.specs.Own.{own_changes};
ghost use Rattle.own_logs.specs.OwnLines.{Two};
ghost use Rattle.own_logs.specs.LoggedSteps.{most_lines, Noted, progress_of, steps_in, walk_in, told_of};
ghost use Rattle.own_logs.specs.LogStores.{LogLeft, closed};

use lines::Lines;
use log_steps::lengths::{LOG, STEP};
use reduction::step::{Progress, SPAN, Stop};
use refusals::Refusal;
use sides::Side;
use stores::lengths::COLUMNS;

mod lines;

// Where a run that accepts has come to, and the steps of its log.
#[derive(Clone, Copy)]
pub struct Written {
    pub progress: Progress,
    pub steps: usize,
}

// Both lines behind k steps. What does not count is written over by the next step, or at the end.
fn put_lines(log: &mut [i64], k: usize, lines: Lines)
    requires { Two lines × (k * step_length + (step_length + step_length) ≤ length log.old) }
    ensures { log.new
        ≡ paste log.old (k * step_length) (lines.first ++ lines.second) (step_length + step_length) }
{
    let first = lines.first;
    let second = lines.second;
    stores::rows::save(log, k * STEP, &first[..]);
    stores::rows::save(log, k * STEP + STEP, &second[..]);
}

// As the steps of a run, with the lines of each before it is taken: afterwards the rows are others.
fn steps(
    rows: &mut [i64],
    relations: &mut [i64],
    equations: usize,
    count: usize,
    log: &mut [i64],
) -> Result<Written, Stop>
    requires { (equations ≤ most_equations) × Within (row_need equations) rows.old × Listing count relations.old
        × (own_need ≤ length log.old) }
    ensures came { Came run_answer equations rows.old relations.old rows.new relations.new most_steps
        (walk_in result) (run_of Elimination.leading equations count rows.old relations.old) }
    ensures noted { Noted
        (own_changes (rows_of equations rows.old) (relations_of count relations.old))
        log.old log.new (refusal_in (told_of result)) (steps_in (told_of result)) }
{
    let mut p = Progress::start(equations, count);
    let mut k = 0;
    let most = reduction::run::enough(equations);
    for _ in 0..most {
        if p.is_done() {
            return Ok(Written {
                progress: p,
                steps: k,
            });
        }
        let lines = lines::step_lines(rows, p);
        put_lines(log, k, lines);
        k += lines.count;
        p = reduction::step::step(rows, relations, Side::Leading, SPAN, p)?;
    }
    Ok(Written {
        progress: p,
        steps: k,
    })
}

// A refused run leaves zeros, in the log too (SCOPE 6.33, 13.52).
pub fn run(
    rows: &mut [i64],
    relations: &mut [i64],
    equations: usize,
    count: usize,
    log: &mut [i64],
) -> Result<Written, Refusal>
    requires { (equations ≤ most_equations) × Within (row_need equations) rows.old × Listing count relations.old
        × (own_need ≤ length log.old) }
    ensures ran { Ran equations rows.old relations.old rows.new relations.new (final_answer equations (progress_of result))
        (run_of Elimination.leading equations count rows.old relations.old) }
    ensures log_left { LogLeft
        (own_changes (rows_of equations rows.old) (relations_of count relations.old))
        log.old log.new (refusal_in result) (steps_in result) }
{
    match steps(rows, relations, equations, count, log) {
        Ok(written) => Ok(written),
        Err(stop) => {
            reduction::run::clear(rows, relations, equations, stop.progress.count);
            stores::rows::clear(log, 0, LOG);
            Err(stop.refusal)
        }
    }
}

// The columns of the rows that are left, as a run reports them (SCOPE 13.52).
fn put_order(log: &mut [i64], at: usize, order: [usize; COLUMNS])
    requires { (at + column_count ≤ length log.old) × All (λ c. c ≤ column_count) order × (length order ≡ column_count) }
    ensures { log.new ≡ paste log.old at (map pos order) column_count }
{
    for (j, c) in order.iter().enumerate() {
        log[at + j] = *c as i64;
    }
}

// The four numbers behind the steps, and zeros past them (SCOPE 13.1, 13.52).
pub fn close(log: &mut [i64], steps: usize, order: [usize; COLUMNS])
    requires { (steps ≤ most_lines) × (own_need ≤ length log.old) × All (λ c. c ≤ column_count) order × (length order ≡ column_count) }
    ensures { log.new ≡ closed (take (steps * step_length) log.old ++ map pos order) log.old }
{
    let end = steps * STEP + COLUMNS;
    put_order(log, steps * STEP, order);
    stores::rows::clear(log, end, LOG - end);
}
