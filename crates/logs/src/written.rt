// Our own run with the log that it writes: the run on stores that pass the checks (SCOPE 13.5).
ghost use Rattle.std.specs.Prelude.{◌≡◌};
ghost use Rattle.stores.specs.Validity.{the_sizes_of};
ghost use Rattle.log_steps.specs.Logs as Logs;
ghost use Rattle.logs.specs.LogCalls.{check_replay, logged_call};
ghost use Rattle.logs.specs.LoggedRuns.{logged_of};

use crate::Logged;
use sides::Side;

// A run with its log on stores that pass the checks.
pub(crate) fn checked_run(
    rows: &mut [i64],
    relations: &mut [i64],
    sizes: stores::validity::Sizes,
    count: usize,
    log: &mut [i64],
) -> Logged
    requires { check_replay (the_sizes_of sizes) count Logs.most_steps log.old rows.old relations.old ≡ 0 }
    ensures { logged_of result rows.new relations.new log.new
        ≡ logged_call (the_sizes_of sizes) count log.old rows.old relations.old }
{
    match own_logs::run(rows, relations, sizes.equations, count, log) {
        Ok(written) => {
            let span = stores::validity::span(sizes);
            let report = runs::accepted(rows, span, Side::Leading, written.progress);
            own_logs::close(log, written.steps, report.order);
            Logged {
                run: Ok(report),
                steps: written.steps,
            }
        }
        Err(refusal) => Logged {
            run: Err(refusal),
            steps: 0,
        },
    }
}
