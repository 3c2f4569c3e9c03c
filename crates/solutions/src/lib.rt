// Polynomial solutions: which sequences satisfy a system and are zero outside the indices 0 to N. `solutions` is the public entry point: no
// `requires`, and a contract that gives the result and every store that it may write by one equation.
#![tactic(auto)]

ghost use Rattle.std.specs.Prelude.{◌≡◌, true, ◌≤◌, length, take};
ghost use Rattle.rules.specs.Calls.{zeros};
ghost use Rattle.rules.specs.Stores as Stores;
ghost use Rattle.stores.specs.Validity.{the_sizes_of};
ghost use Rattle.sides.specs.Lent.{Kept};
ghost use Rattle.constant_rows.specs.ListLengths.{largest_index, list_need, matrix_need};
ghost use Rattle.solutions.specs.SolutionCalls as Calls;
ghost use Rattle.solutions.specs.LastIndices.{last_of, answer_with};
ghost use Rattle.solutions.specs.AnswerStores.{solutions_of, work_of, call_of, AnswerLeft};

use constant_rows::lengths::{LIST_COLUMNS, MATRIX_ROWS};
use trailing::Last;

mod checks;
mod course;
mod trailing;

// The number of the refusal or 0; whether the work began, which writes the stores; whether there is an N from 0 on, and which; and the
// number of the listed sequences (SCOPE 14.62 to 14.64).
#[derive(Drop)]
#[derive(Clone, Copy)]
pub struct SolutionsResult {
    pub refusal: u8,
    pub begun: bool,
    pub found: bool,
    pub last: usize,
    pub count: usize,
}

// A refusal, or "no" with 0: all other numbers are 0 (SCOPE 14.64).
fn unlisted(refusal: u8, begun: bool) -> SolutionsResult
    ensures { solutions_of result ≡ Calls.unlisted begun refusal }
{
    SolutionsResult {
        refusal,
        begun,
        found: false,
        last: 0,
        count: 0,
    }
}

// The answer, once it is known which N there is. The list store holds zeros in its needed part, and does so again after a refusal
// (SCOPE 14.63).
fn answer_for(
    rows: &[i64],
    relations: &[i64],
    sizes: stores::validity::Sizes,
    count: usize,
    reached: Last,
    matrix: &mut [i64],
    list: &mut [i64],
) -> SolutionsResult
    requires relations_value { (Stores.check_stores_of (the_sizes_of sizes) count rows.now relations.now ≡ 0)
        × (reached.found ≡ true → reached.index ≤ largest_index) }
    requires matrix_need_in_bounds { (matrix_need ≤ length matrix.old) × (list_need ≤ length list.old)
        × (take list_need list.old ≡ zeros list_need) }
    ensures answer_left { AnswerLeft (answer_with (the_sizes_of sizes) (Stores.rows_of sizes.equations rows.now)
        (Stores.relations_of count relations.now) (last_of reached)) result list.old list.new }
    ensures kept { Kept matrix_need matrix.old matrix.new }
{
    if !reached.found {
        return unlisted(reached.refusal, true);
    }
    let last = reached.index;
    match course::list_for(rows, relations, sizes, count, last, matrix, list) {
        Ok(listed) => SolutionsResult {
            refusal: 0,
            begun: true,
            found: true,
            last,
            count: listed,
        },
        Err(refusal) => {
            stores::rows::clear(list, 0, LIST_COLUMNS * LIST_COLUMNS);
            unlisted(refusal.number(), true)
        }
    }
}

// The call on stores that pass the checks: the work stores end as zeros (SCOPE 14.63).
fn checked_solutions(
    rows: &[i64],
    relations: &[i64],
    sizes: stores::validity::Sizes,
    count: usize,
    work_rows: &mut [i64],
    work_relations: &mut [i64],
    work_matrix: &mut [i64],
    list: &mut [i64],
) -> SolutionsResult
    requires { Calls.check_call (the_sizes_of sizes) count rows.now relations.now
        (work_of work_rows.old work_relations.old work_matrix.old list.old) ≡ 0 }
    ensures { call_of result work_rows.new work_relations.new work_matrix.new list.new
        ≡ Calls.solutions_call (the_sizes_of sizes) count rows.now relations.now
        (work_of work_rows.old work_relations.old work_matrix.old list.old) }
{
    stores::rows::clear(list, 0, LIST_COLUMNS * LIST_COLUMNS);
    let reached = trailing::last_index(rows, relations, sizes, count, work_rows, work_relations);
    let answer = answer_for(rows, relations, sizes, count, reached, work_matrix, list);
    stores::rows::clear(work_matrix, 0, MATRIX_ROWS * LIST_COLUMNS);
    answer
}

// Which sequences satisfy the system and are zero outside 0 to N? The system's stores are only read; the four others are lent for the
// work and for the list (SCOPE 14.61).
pub fn solutions(
    rows: &[i64],
    relations: &[i64],
    sizes: stores::validity::Sizes,
    count: usize,
    work_rows: &mut [i64],
    work_relations: &mut [i64],
    work_matrix: &mut [i64],
    list: &mut [i64],
) -> SolutionsResult
    ensures { call_of result work_rows.new work_relations.new work_matrix.new list.new
        ≡ Calls.solutions_call (the_sizes_of sizes) count rows.now relations.now
        (work_of work_rows.old work_relations.old work_matrix.old list.old) }
{
    let checked = checks::check(
        rows,
        relations,
        sizes,
        count,
        work_rows,
        work_relations,
        work_matrix,
        list,
    );
    match checked {
        Ok(()) => checked_solutions(
            rows,
            relations,
            sizes,
            count,
            work_rows,
            work_relations,
            work_matrix,
            list,
        ),
        Err(refusal) => unlisted(refusal.number(), false),
    }
}
