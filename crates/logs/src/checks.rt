// The checks before a replay: sizes and steps (2), the lengths of the three stores (1), the system's numbers (5) (SCOPE 13.41).
ghost use Rattle.std.specs.Prelude.{◌≡◌};
ghost use Rattle.refusals.specs.Refusals.{refusal_in};
ghost use Rattle.stores.specs.Validity.{the_sizes_of};
ghost use Rattle.logs.specs.LogCalls as LogCalls;

use log_steps::lengths::{STEP, STEPS};
use refusals::Refusal;
use stores::lengths::COLUMNS;

// The number of a refusal, or 0.
fn refusal_number(checked: &Result<(), Refusal>) -> u8
    ensures { result ≡ refusal_in checked.now }
{
    match checked {
        Ok(()) => 0,
        Err(refusal) => refusal.number(),
    }
}

// The first check that fails.
pub(crate) fn check(
    rows: &[i64],
    relations: &[i64],
    sizes: stores::validity::Sizes,
    count: usize,
    steps: usize,
    log: &[i64],
) -> Result<(), Refusal>
    ensures { refusal_in result
        ≡ LogCalls.check_replay (the_sizes_of sizes) count steps log.now rows.now relations.now }
{
    let system = stores::validity::check_stores(rows, relations, sizes, count);
    if STEPS < steps {
        return Err(Refusal::OutOfRange);
    }
    let number = refusal_number(&system);
    if number == 2 {
        return Err(Refusal::OutOfRange);
    }
    if log.len() < steps * STEP + COLUMNS {
        return Err(Refusal::ShortStore);
    }
    system
}
