// The state and the result of a run by steps as numbers of lent stores.
#![tactic(auto)]

ghost use Rattle.std.specs.Prelude.{◌≡◌, ◌≤◌, length};
ghost use Rattle.lists.specs.Overwritten.{overwrite};
ghost use Rattle.stores.specs.Validity.{the_sizes_of};
ghost use Rattle.steps.specs.Handed.{held_of};
ghost use Rattle.steps.specs.HeldCalls.{state_numbers_of};
ghost use Rattle.steps.specs.SmallSteps.{SmallState};
ghost use Rattle.refusals.specs.Refusals.{refusal_in};
ghost use Rattle.exported_runs.specs.Runs.{run_numbers_of, SmallResult};
ghost use Rattle.steps.specs.StepCalls.{result_of, run_in, finished_in};
ghost use Rattle.exported_steps.specs.StateNumbers.{counts_right_of, held_in, export_prepare};
ghost use Rattle.exported_steps.specs.StepNumbers.{step_numbers, early, state_left, result_left};
ghost use Rattle.exported_steps.specs.StepNumbers.{SmallNumbers, SmallUnlessEarly, export_steps};

use elimination::RunReport;
use refusals::Refusal;
use steps::{State, StepsResult};

// No count among the eleven numbers of a state is negative; l and t may be (SCOPE 11.43).
fn counts_right(numbers: &[i64]) -> bool
    requires { 11 ≤ length numbers.now }
    ensures { result ≡ counts_right_of numbers.now }
{
    export_results::no_negative(&numbers[..2]) && export_results::no_negative(&numbers[4..11])
}

// The state that eleven numbers say (SCOPE 11.12).
fn state_in(numbers: &[i64]) -> State
    requires { 11 ≤ length numbers.now }
    ensures { held_of result ≡ held_in numbers.now }
{
    let order = export_results::columns(&numbers[6..]);
    State {
        sizes: stores::validity::Sizes {
            m: integers::magnitude(numbers[0]) as usize,
            equations: integers::magnitude(numbers[1]) as usize,
            l: numbers[2],
            t: numbers[3],
        },
        relations: integers::magnitude(numbers[4]) as usize,
        settled: integers::magnitude(numbers[5]) as usize,
        order,
        shifts: integers::magnitude(numbers[10]) as usize,
    }
}

fn state_numbers(state: State) -> [i64; 11]
    requires { SmallState (held_of state) }
    ensures { result ≡ state_numbers_of (held_of state) }
{
    let sizes = state.sizes;
    let order = state.order;
    [
        sizes.m as i64,
        sizes.equations as i64,
        sizes.l,
        sizes.t,
        state.relations as i64,
        state.settled as i64,
        order[0] as i64,
        order[1] as i64,
        order[2] as i64,
        order[3] as i64,
        state.shifts as i64,
    ]
}

// A state store that is too short is refused with the other lengths, so as stores that hold nothing (SCOPE 11.42).
pub fn exported_prepare(
    rows: &[i64],
    relations: &[i64],
    sizes: stores::validity::Sizes,
    count: usize,
    state: &mut [i64],
) -> u8
    ensures { record { refusal = result; state_store = state.new }
        ≡ export_prepare (the_sizes_of sizes) count rows.now relations.now state.old }
{
    if state.len() < 11 {
        let checked = stores::validity::check_stores(&rows[..0], &relations[..0], sizes, count);
        return export_results::number_in(&checked);
    }
    match steps::prepare(rows, relations, sizes, count) {
        Ok(first) => {
            let numbers = state_numbers(first);
            export_results::put(state, &numbers[..]);
            0
        }
        Err(refusal) => refusal.number(),
    }
}

// The numbers of a run: zeros where it is not finished (SCOPE 11.44).
fn run_numbers(run: Result<Option<RunReport>, Refusal>) -> [i64; 10]
    requires { SmallResult (run_in run) }
    ensures { result ≡ run_numbers_of (run_in run) }
{
    match run {
        Ok(finished) => match finished {
            Some(report) => exported_runs::run_numbers(Ok(report)),
            None => [0; 10],
        },
        Err(refusal) => exported_runs::run_numbers(Err(refusal)),
    }
}

// The steps, 1 or 0 for a finished run, and behind them the ten numbers of a run (SCOPE 11.44).
fn put_steps(res: &mut [i64], answer: StepsResult)
    requires { (12 ≤ length res.old) × SmallNumbers (result_of answer) }
    ensures { res.new ≡ overwrite (step_numbers (result_of answer)) res.old }
{
    let numbers = run_numbers(answer.run);
    res[0] = answer.steps as i64;
    res[1] = is_finished(answer.run) as i64;
    stores::rows::save(res, 2, &numbers[..]);
}

// Is no row left?
fn is_finished(run: Result<Option<RunReport>, Refusal>) -> bool
    ensures { result ≡ finished_in run }
{
    match run {
        Ok(report) => report.is_some(),
        Err(_) => false,
    }
}

// The refusals of the checks; those of a step are 7 to 10 (SCOPE 11.34, 11.35).
fn found_before(refusal: u8) -> bool
    ensures { result ≡ early refusal }
{
    refusal == 1 || refusal == 11
}

// The stores of state and result after a call: unchanged where the refusal was found before the work began (SCOPE 11.35).
fn put_answer(state: &mut [i64], res: &mut [i64], answer: StepsResult) -> u8
    requires { (11 ≤ length state.old) × (12 ≤ length res.old) × SmallUnlessEarly (result_of answer) }
    ensures { (result ≡ refusal_in answer.run)
        × (state.new ≡ state_left (result_of answer) state.old)
        × (res.new ≡ result_left (result_of answer) res.old) }
{
    let refusal = export_results::number_in(&answer.run);
    if found_before(refusal) {
        return refusal;
    }
    let left = answer.state;
    let numbers = state_numbers(left);
    export_results::put(state, &numbers[..]);
    put_steps(res, answer);
    refusal
}

// A state store that is too short is found before everything; a result store that is too short with the other lengths, so as stores
// that hold nothing (SCOPE 11.43, 11.44).
pub fn exported_steps(
    rows: &mut [i64],
    relations: &mut [i64],
    state: &mut [i64],
    budget: usize,
    res: &mut [i64],
) -> u8
    ensures { record {
      refusal = result;
      row_store = rows.new;
      relation_store = relations.new;
      state_store = state.new;
      result_store = res.new;
    }
        ≡ export_steps budget rows.old relations.old state.old res.old }
{
    if state.len() < 11 {
        return 1;
    }
    if !counts_right(state) {
        return 11;
    }
    let held = state_in(state);
    if res.len() < 12 {
        let judged = steps::run_steps(&mut rows[..0], &mut relations[..0], held, 0);
        return export_results::number_in(&judged.run);
    }
    let answer = steps::run_steps(rows, relations, held, budget);
    put_answer(state, res, answer)
}
