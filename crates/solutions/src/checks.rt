// The checks of the call: sizes (2), lengths (1), numbers (5), right sides (14) (SCOPE 14.62).
ghost use Rattle.std.specs.Prelude.{◌≡◌, ◌&&◌, ◌+◌, ◌*◌, ◌≤◌, leb, length};
ghost use Rattle.rules.specs.Limits.{coefficient_count, relation_length, most_equations, most_relations};
ghost use Rattle.rules.specs.Stores as Stores;
ghost use Rattle.refusals.specs.Refusals.{refusal_in};
ghost use Rattle.stores.specs.Validity.{the_sizes_of};
ghost use Rattle.constant_rows.specs.ListLengths.{list_need, matrix_need};
ghost use Rattle.solutions.specs.SolutionAnswers as Answers;
ghost use Rattle.solutions.specs.SolutionCalls as Calls;
ghost use Rattle.solutions.specs.SolutionChecks.{sides_zero_of};

use constant_rows::lengths::{LIST_COLUMNS, MATRIX_ROWS};
use polynomials::lengths::COEFFICIENTS;
use refusals::Refusal;
use stores::lengths::{ENTRIES, RELATION, ROW};

// The sixteen numbers from `at` on are zero in each of so many parts of one width.
fn sides_zero(store: &[i64], at: usize, width: usize, count: usize) -> bool
    requires { (at + coefficient_count ≤ width) × (width ≤ relation_length) × (count * width ≤ length store.now) }
    ensures { result ≡ sides_zero_of at width count store.now }
{
    for i in 0..count {
        let from = i * width + at;
        let to = from + COEFFICIENTS;
        if !polynomials::content::is_zero(&store[from..to]) {
            return false;
        }
    }
    true
}

// The right sides of the equations and of the relations are zero (SCOPE 14.11).
fn homogeneous(rows: &[i64], relations: &[i64], equations: usize, count: usize) -> bool
    requires { (Stores.row_need equations ≤ length rows.now) × (count ≤ most_relations)
        × (Stores.relation_need ≤ length relations.now) }
    ensures { result ≡ Answers.homogeneous (Stores.rows_of equations rows.now)
        (Stores.relations_of count relations.now) }
{
    if !sides_zero(rows, ENTRIES, ROW, equations) {
        return false;
    }
    sides_zero(relations, 1 + ENTRIES, RELATION, count)
}

// The stores that are written have their needed parts.
fn lent_long(
    rows: &[i64],
    relations: &[i64],
    matrix: &[i64],
    list: &[i64],
    equations: usize,
) -> bool
    requires { equations ≤ most_equations }
    ensures { result ≡ (Stores.lengths_right_of equations rows.now relations.now
        && leb matrix_need (length matrix.now) && leb list_need (length list.now)) }
{
    if !stores::validity::lengths_right(rows, relations, equations) {
        return false;
    }
    if matrix.len() < MATRIX_ROWS * LIST_COLUMNS {
        return false;
    }
    LIST_COLUMNS * LIST_COLUMNS <= list.len()
}

// The number of a refusal, or 0.
fn number_in(checked: Result<(), Refusal>) -> u8
    ensures { result ≡ refusal_in checked }
{
    match checked {
        Ok(()) => 0,
        Err(refusal) => refusal.number(),
    }
}

// The first check that fails.
pub(crate) fn check(
    rows: &[i64],
    relations: &[i64],
    sizes: stores::validity::Sizes,
    count: usize,
    work_rows: &[i64],
    work_relations: &[i64],
    matrix: &[i64],
    list: &[i64],
) -> Result<(), Refusal>
    ensures { refusal_in result ≡ Calls.check_call (the_sizes_of sizes) count rows.now relations.now
        (record {
          rows = work_rows.now;
          relations = work_relations.now;
          matrix = matrix.now;
          list = list.now;
        }) }
{
    let system = number_in(stores::validity::check_stores(rows, relations, sizes, count));
    if system == 2 {
        return Err(Refusal::OutOfRange);
    }
    if system == 1 {
        return Err(Refusal::ShortStore);
    }
    if !lent_long(work_rows, work_relations, matrix, list, sizes.equations) {
        return Err(Refusal::ShortStore);
    }
    if system == 5 {
        return Err(Refusal::PastBound);
    }
    if !homogeneous(rows, relations, sizes.equations, count) {
        return Err(Refusal::NotListed);
    }
    Ok(())
}
