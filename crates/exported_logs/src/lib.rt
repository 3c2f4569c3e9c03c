// The replay of a log, and our own run with its log: results as numbers of a lent store.
#![tactic(auto)]

ghost use Rattle.std.specs.Prelude.{◌≡◌, [], ◌∷◌, ◌++◌, ◌≤◌, pos, length};
ghost use Rattle.stores.specs.Validity.{the_sizes_of};
ghost use Rattle.runs.specs.CallLaws.{result_of};
ghost use Rattle.log_steps.specs.Logs.{most_steps};
ghost use Rattle.logs.specs.LogCalls.{check_replay};
ghost use Rattle.exported_runs.specs.Runs.{run_numbers_of, SmallResult};
ghost use Rattle.refusals.specs.Refusals.{refusal_in};
ghost use Rattle.export_results.specs.Results.{kept_or};
ghost use Rattle.exported_logs.specs.LogNumbers.{export_replay, export_logged};

use elimination::RunReport;
use refusals::Refusal;

// The steps of the longest log (SCOPE 13.1).
const MOST_STEPS: usize = 1000;

// The numbers of the result of a run, and of a run with its log (SCOPE 3.52, 13.55).
const RUN: usize = 10;

const LOGGED: usize = 11;

// The checks with a result store that is too short: it is refused with the other lengths, so as stores that hold nothing (SCOPE 3.53).
fn too_short(
    rows: &[i64],
    relations: &[i64],
    sizes: stores::validity::Sizes,
    count: usize,
    steps: usize,
) -> u8
    ensures { result ≡ check_replay (the_sizes_of sizes) count steps [] [] [] }
{
    if MOST_STEPS < steps {
        return 2;
    }
    let checked = stores::validity::check_stores(&rows[..0], &relations[..0], sizes, count);
    export_results::number_in(&checked)
}

pub fn exported_replay(
    rows: &mut [i64],
    relations: &mut [i64],
    sizes: stores::validity::Sizes,
    count: usize,
    steps: usize,
    log: &[i64],
    res: &mut [i64],
) -> u8
    ensures { record { refusal = result; row_store = rows.new; relation_store = relations.new; result_store = res.new }
        ≡ export_replay (the_sizes_of sizes) count steps
        log.now rows.old relations.old res.old }
{
    if res.len() < RUN {
        return too_short(rows, relations, sizes, count, steps);
    }
    let answer = logs::replay(rows, relations, sizes, count, steps, log);
    exported_runs::put_run(res, answer);
    export_results::number_in(&answer)
}

// The result store after a run with its log: unchanged where the refusal was found before the work began (SCOPE 3.54).
fn put_logged(res: &mut [i64], run: Result<RunReport, Refusal>, steps: usize)
    requires { (11 ≤ length res.old) × SmallResult (result_of run) × (steps ≤ most_steps) }
    ensures { res.new ≡ kept_or (refusal_in run) (run_numbers_of (result_of run) ++ (pos steps ∷ [])) res.old }
{
    if stores::validity::counted(export_results::number_in(&run) as usize, 5) {
        return;
    }
    let numbers = exported_runs::run_numbers(run);
    export_results::put(res, &numbers[..]);
    res[RUN] = steps as i64;
}

pub fn exported_run(
    rows: &mut [i64],
    relations: &mut [i64],
    sizes: stores::validity::Sizes,
    count: usize,
    log: &mut [i64],
    res: &mut [i64],
) -> u8
    ensures { record {
      refusal = result;
      row_store = rows.new;
      relation_store = relations.new;
      log_store = log.new;
      result_store = res.new;
    }
        ≡ export_logged (the_sizes_of sizes) count log.old rows.old relations.old res.old }
{
    if res.len() < LOGGED {
        return too_short(rows, relations, sizes, count, MOST_STEPS);
    }
    let answer = logs::run_logged(rows, relations, sizes, count, log);
    put_logged(res, answer.run, answer.steps);
    export_results::number_in(&answer.run)
}
