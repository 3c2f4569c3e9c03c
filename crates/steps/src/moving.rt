// Steps over checked stores: at most as many as a budget says, and what is left of a run that is refused.
ghost use Rattle.std.specs.Prelude.{◌≡◌, ◌≤◌};
ghost use Rattle.reduction.specs.Progress.{Ready};
ghost use Rattle.steps.specs.Moving.{Moves, MovedTo};

use reduction::step::{Progress, SPAN, Stop};
use sides::Side;

// Where a run has come to, and the number of its steps, which a refusal tells too (SCOPE 8.1, 11.45).
#[derive(Clone, Copy)]
pub(crate) struct Moved {
    pub run: Result<Progress, Stop>,
    pub taken: usize,
}

fn stopped(run: Result<Progress, Stop>, taken: usize) -> Moved
    ensures { result ≡ record { run = run; taken = taken } }
{
    Moved { run, taken }
}

// Step after step, up to a refusal, or as long as a row and a step are left. A step that is refused is not counted (SCOPE 11.1, 11.3).
fn take_steps(rows: &mut [i64], relations: &mut [i64], first: Progress, budget: usize) -> Moved
    requires { Ready rows.old relations.old first × (first.shifts ≤ 24) }
    ensures { Moves first budget rows.old relations.old rows.new relations.new result }
{
    let mut p = first;
    for taken in 0..budget {
        if p.is_done() {
            return stopped(Ok(p), taken);
        }
        match reduction::step::step(rows, relations, Side::Leading, SPAN, p) {
            Ok(next) => p = next,
            Err(stop) => return stopped(Err(stop), taken),
        }
    }
    stopped(Ok(p), budget)
}

// A refused run leaves zeros (SCOPE 11.34).
pub(crate) fn run_on(
    rows: &mut [i64],
    relations: &mut [i64],
    first: Progress,
    budget: usize,
) -> Moved
    requires { Ready rows.old relations.old first × (first.shifts ≤ 24) }
    ensures { MovedTo first budget rows.old relations.old rows.new relations.new result }
{
    let moved = take_steps(rows, relations, first, budget);
    match moved.run {
        Ok(_) => moved,
        Err(stop) => {
            reduction::run::clear(rows, relations, first.rows, stop.progress.count);
            moved
        }
    }
}
