// The result of a run as numbers of a lent store.
#![tactic(auto)]

ghost use Rattle.std.specs.Prelude.{◌≡◌, ◌≤◌, length};
ghost use Rattle.refusals.specs.Refusals.{refusal_in};
ghost use Rattle.rules.specs.Calls.{call_run};
ghost use Rattle.stores.specs.Validity.{the_sizes_of};
ghost use Rattle.sides.specs.Lent.{side_of};
ghost use Rattle.runs.specs.CallLaws.{result_of, call_of};
ghost use Rattle.exported_runs.specs.Runs.{run_numbers_of, SmallResult, export_run};
ghost use Rattle.export_results.specs.Results.{kept_or};

use elimination::RunReport;
use multiplicities::Root;
use refusals::Refusal;
use sides::Side;

pub fn run_numbers(run: Result<RunReport, Refusal>) -> [i64; 10]
    requires { SmallResult (result_of run) }
    ensures { result ≡ run_numbers_of (result_of run) }
{
    let Ok(report) = run else {
        return [0; 10];
    };
    let root = report.root.unwrap_or(Root { value: 0, times: 0 });
    let order = report.order;
    [
        report.relations as i64,
        report.shifts as i64,
        order[0] as i64,
        order[1] as i64,
        order[2] as i64,
        order[3] as i64,
        report.root.is_some() as i64,
        root.value,
        report.rank as i64,
        root.times as i64,
    ]
}

// The result store after a run: unchanged where the refusal was found before the work began (SCOPE 3.54).
pub fn put_run(res: &mut [i64], run: Result<RunReport, Refusal>)
    requires { (10 ≤ length res.old) × SmallResult (result_of run) }
    ensures { res.new ≡ kept_or (refusal_in run) (run_numbers_of (result_of run)) res.old }
{
    if stores::validity::counted(export_results::number_in(&run) as usize, 5) {
        return;
    }
    let numbers = run_numbers(run);
    export_results::put(res, &numbers[..]);
}

fn run(
    rows: &mut [i64],
    relations: &mut [i64],
    sizes: stores::validity::Sizes,
    count: usize,
    side: Side,
) -> Result<RunReport, Refusal>
    ensures { call_of result rows.new relations.new
        ≡ call_run (side_of side) (the_sizes_of sizes) count rows.old relations.old }
{
    match side {
        Side::Leading => elimination::run_leading(rows, relations, sizes, count),
        Side::Trailing => elimination::run_trailing(rows, relations, sizes, count),
    }
}

// The exported run of a side. A result store that is too short is refused with the other lengths, so as stores that
// hold nothing (SCOPE 3.53).
pub fn exported(
    rows: &mut [i64],
    relations: &mut [i64],
    sizes: stores::validity::Sizes,
    count: usize,
    res: &mut [i64],
    side: Side,
) -> u8
    ensures { record { refusal = result; row_store = rows.new; relation_store = relations.new; result_store = res.new }
        ≡ export_run (side_of side) (the_sizes_of sizes) count rows.old relations.old res.old }
{
    if res.len() < 10 {
        let checked = stores::validity::check_stores(&rows[..0], &relations[..0], sizes, count);
        return export_results::number_in(&checked);
    }
    let answer = run(rows, relations, sizes, count, side);
    put_run(res, answer);
    export_results::number_in(&answer)
}
