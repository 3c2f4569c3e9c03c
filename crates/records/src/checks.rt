// The checks of the call: sizes (2), then lengths (1), then numbers (5), each of the system first (SCOPE 12.14).
ghost use Rattle.std.specs.Prelude.{◌≡◌, leb, nat_abs};
ghost use Rattle.refusals.specs.Refusals.{refusal_in};
ghost use Rattle.rules.specs.Stores.{check_stores_of};
ghost use Rattle.stores.specs.Validity.{the_sizes_of};
ghost use Rattle.records.specs.Records as Records;

use refusals::Refusal;

// The largest number of vectors (SCOPE 12.11).
const VECTORS: usize = 64;

// The largest index in size (SCOPE 12.11).
const INDEX: u64 = 1_048_576;

// The largest value in size (SCOPE 12.13).
const VALUE: u64 = 65_536;

// No larger in size than a limit.
fn within(n: i64, most: u64) -> bool
    ensures { result ≡ leb (nat_abs n) most }
{
    integers::magnitude(n) <= most
}

// The first index and the last are in range; where there is no vector, the first alone is asked for (SCOPE 12.11).
fn record_right(first: i64, vectors: usize) -> bool
    ensures { result ≡ Records.record_right_of first vectors }
{
    if VECTORS < vectors {
        return false;
    }
    if !within(first, INDEX) {
        return false;
    }
    if vectors == 0 {
        return true;
    }
    within(first + (vectors - 1) as i64, INDEX)
}

fn values_right(values: &[i64]) -> bool
    ensures { result ≡ Records.values_right_of values.now }
{
    values.iter().all(|value| within(*value, VALUE))
}

// The number of the system's first check that fails, or 0: by number, since checks of the record come between those of the system.
fn check_stores(rows: &[i64], relations: &[i64], sizes: stores::validity::Sizes, count: usize) -> u8
    ensures { result ≡ check_stores_of (the_sizes_of sizes) count rows.now relations.now }
{
    match stores::validity::check_stores(rows, relations, sizes, count) {
        Ok(()) => 0,
        Err(refusal) => refusal.number(),
    }
}

// The first check that fails.
pub(crate) fn check(
    rows: &[i64],
    relations: &[i64],
    sizes: stores::validity::Sizes,
    count: usize,
    first: i64,
    vectors: usize,
    values: &[i64],
) -> Result<(), Refusal>
    ensures { refusal_in result ≡ Records.check_record_of (the_sizes_of sizes) count first vectors
        rows.now relations.now values.now }
{
    let system = check_stores(rows, relations, sizes, count);
    if system == 2 {
        return Err(Refusal::OutOfRange);
    }
    if !record_right(first, vectors) {
        return Err(Refusal::OutOfRange);
    }
    if system == 1 {
        return Err(Refusal::ShortStore);
    }
    let need = vectors * sizes.m;
    if values.len() < need {
        return Err(Refusal::ShortStore);
    }
    if system == 5 {
        return Err(Refusal::PastBound);
    }
    if !values_right(&values[..need]) {
        return Err(Refusal::PastBound);
    }
    Ok(())
}
