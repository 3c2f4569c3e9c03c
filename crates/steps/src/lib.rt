// The leading run by steps: a state is prepared, and each call takes at most as many steps as its budget says. `prepare` and `run_steps`
// are the public entry points: no `requires`, and contracts that give the result and every lent store by equations.
#![tactic(auto)]

ghost use Rattle.std.specs.Prelude.{◌≡◌, List, ◌≤◌, leb, T, ℤ};
ghost use Rattle.rules.specs.Limits.{column_count};
ghost use Rattle.rules.specs.Stores.{sizes_right_of, span};
ghost use Rattle.stores.specs.Validity.{the_sizes_of};
ghost use Rattle.working_rows.specs.Found.{Columns};
ghost use Rattle.reduction.specs.Progress.{outcome_in};
ghost use Rattle.steps.specs.HeldCalls as Calls;
ghost use Rattle.steps.specs.Handed.{held_of, prepared_of};
ghost use Rattle.steps.specs.StepCalls.{held_by, finished_in, run_in, run_after, Stands, call_of};

use reduction::step::Progress;
use refusals::Refusal;
use runs::RunReport;
use sides::Side;
use stores::lengths::COLUMNS;

pub mod checks;
mod moving;

// A run between two calls: the sizes of the rows that are left, the number of relations, of settled rows, their columns, counted
// from 1, with zeros past the last, and the shifts (SCOPE 11.11).
#[derive(Clone, Copy)]
pub struct State {
    pub sizes: stores::validity::Sizes,
    pub relations: usize,
    pub settled: usize,
    pub order: [usize; COLUMNS],
    pub shifts: usize,
}

// The steps that were taken, a refused one not counted; the state; and the refusal or, where no row is left, the report of the whole run
// (SCOPE 8.1, 11.31, 11.45).
#[derive(Clone, Copy)]
pub struct StepsResult {
    pub steps: usize,
    pub state: State,
    pub run: Result<Option<RunReport>, Refusal>,
}

// All numbers are 0 (SCOPE 11.34).
fn no_state() -> State
    ensures { held_of result ≡ Calls.no_state_of }
{
    State {
        sizes: stores::validity::Sizes {
            m: 0,
            equations: 0,
            l: 0,
            t: 0,
        },
        relations: 0,
        settled: 0,
        order: [0; COLUMNS],
        shifts: 0,
    }
}

// The state before the first step; the stores are checked as for a run, and only read (SCOPE 11.15, 11.16).
pub fn prepare(
    rows: &[i64],
    relations: &[i64],
    sizes: stores::validity::Sizes,
    count: usize,
) -> Result<State, Refusal>
    ensures { prepared_of result ≡ Calls.prepare_call (the_sizes_of sizes) count rows.now relations.now }
{
    stores::validity::check_stores(rows, relations, sizes, count)?;
    Ok(State {
        sizes,
        relations: count,
        settled: 0,
        order: [0; COLUMNS],
        shifts: 0,
    })
}

// The state that a run has come to (SCOPE 11.14).
fn state_at(sizes: stores::validity::Sizes, p: Progress) -> State
    requires { (p.settled ≤ column_count) × Columns p.order }
    ensures { held_of result ≡ held_by (the_sizes_of sizes) p }
{
    let settled = p.settled;
    let mut left = sizes;
    left.equations = p.rows;
    State {
        sizes: left,
        relations: p.count,
        settled,
        order: runs::counted(p.order, settled),
        shifts: p.shifts,
    }
}

// The report of a run that was not refused, if no row is left (SCOPE 11.31).
fn report_at(rows: &[i64], sizes: stores::validity::Sizes, p: Progress) -> Option<RunReport>
    requires { T (sizes_right_of (the_sizes_of sizes)) × Stands (span (the_sizes_of sizes)) rows.now p }
    ensures finished { finished_in (Ok result) ≡ leb p.rows p.settled }
    ensures report { (relations : List ℤ)
        → run_in (Ok result) ≡ run_after (span (the_sizes_of sizes)) (outcome_in rows.now relations (Ok p)) }
{
    if !p.is_done() {
        return None;
    }
    Some(runs::accepted(rows, stores::validity::span(sizes), Side::Leading, p))
}

// A run with a budget on a state that passes the checks.
fn checked_steps(
    rows: &mut [i64],
    relations: &mut [i64],
    state: State,
    budget: usize,
) -> StepsResult
    requires { Calls.check_state_of (held_of state) rows.old relations.old ≡ 0 }
    ensures { call_of result rows.new relations.new
        ≡ Calls.steps_call budget (held_of state) rows.old relations.old }
{
    let sizes = state.sizes;
    let settled = state.settled;
    let counted = state.order;
    let order = checks::from_zero(counted, settled);
    let first = Progress {
        rows: sizes.equations,
        settled,
        order,
        count: state.relations,
        shifts: state.shifts,
    };
    let moved = moving::run_on(rows, relations, first, budget);
    let steps = moved.taken;
    match moved.run {
        Ok(p) => StepsResult {
            steps,
            state: state_at(sizes, p),
            run: Ok(report_at(rows, sizes, p)),
        },
        Err(stop) => StepsResult {
            steps,
            state: no_state(),
            run: Err(stop.refusal),
        },
    }
}

// At most as many steps as the budget says, from a state that is checked first; a refusal before the first step leaves all as it
// was (SCOPE 11.21, 11.31, 11.35).
pub fn run_steps(
    rows: &mut [i64],
    relations: &mut [i64],
    state: State,
    budget: usize,
) -> StepsResult
    ensures { call_of result rows.new relations.new
        ≡ Calls.steps_call budget (held_of state) rows.old relations.old }
{
    match checks::check_state(rows, relations, state) {
        Ok(()) => checked_steps(rows, relations, state, budget),
        Err(refusal) => StepsResult {
            steps: 0,
            state,
            run: Err(refusal),
        },
    }
}
