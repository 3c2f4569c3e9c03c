// Elimination logs: the replay of a log from elsewhere, and our own leading run with its log. `replay` and `run_logged` are the public
// entry points: no `requires`, and contracts that give the result and every lent store by equations.
#![tactic(auto)]

ghost use Rattle.std.specs.Prelude.{◌≡◌};
ghost use Rattle.stores.specs.Validity.{the_sizes_of};
ghost use Rattle.runs.specs.CallLaws as RunLaws;
ghost use Rattle.logs.specs.LogCalls as LogCalls;
ghost use Rattle.logs.specs.LoggedRuns.{logged_of};

use log_steps::lengths::STEPS;
use reduction::step::Progress;
use refusals::Refusal;
use runs::RunReport;
use sides::Side;

mod checks;
mod written;

// The result of our own run, and the steps of the log that it has written (SCOPE 13.5).
#[derive(Clone, Copy)]
pub struct Logged {
    pub run: Result<RunReport, Refusal>,
    pub steps: usize,
}

// A leading run on lent stores, and its log in a store of its own (SCOPE 13.5, 13.52).
pub fn run_logged(
    rows: &mut [i64],
    relations: &mut [i64],
    sizes: stores::validity::Sizes,
    count: usize,
    log: &mut [i64],
) -> Logged
    ensures { logged_of result rows.new relations.new log.new
        ≡ LogCalls.logged_call (the_sizes_of sizes) count log.old rows.old relations.old }
{
    if let Err(refusal) = checks::check(rows, relations, sizes, count, STEPS, log) {
        return Logged {
            run: Err(refusal),
            steps: 0,
        };
    }
    written::checked_run(rows, relations, sizes, count, log)
}

// A replay on stores that pass the checks, and what it leaves.
fn checked_replay(
    rows: &mut [i64],
    relations: &mut [i64],
    sizes: stores::validity::Sizes,
    count: usize,
    steps: usize,
    log: &[i64],
) -> Result<RunReport, Refusal>
    requires { LogCalls.check_replay (the_sizes_of sizes) count steps log.now rows.old relations.old ≡ 0 }
    ensures { RunLaws.call_of result rows.new relations.new
        ≡ LogCalls.replay_call (the_sizes_of sizes) count steps log.now rows.old relations.old }
{
    let first = Progress::start(sizes.equations, count);
    let span = stores::validity::span(sizes);
    let p = replays::replay_on(rows, relations, sizes.m, span, steps, log, first)?;
    Ok(runs::accepted(rows, span, Side::Leading, p))
}

// The replay of a log on lent stores: the checks, and the steps; the log is only read (SCOPE 13.4, 13.41, 13.42).
pub fn replay(
    rows: &mut [i64],
    relations: &mut [i64],
    sizes: stores::validity::Sizes,
    count: usize,
    steps: usize,
    log: &[i64],
) -> Result<RunReport, Refusal>
    ensures { RunLaws.call_of result rows.new relations.new
        ≡ LogCalls.replay_call (the_sizes_of sizes) count steps log.now rows.old relations.old }
{
    checks::check(rows, relations, sizes, count, steps, log)?;
    checked_replay(rows, relations, sizes, count, steps, log)
}
