// The last index N: the trailing run on a copy of the system, and the largest root of the diagonal polynomials (SCOPE 14.12, 14.2).
ghost use Rattle.std.specs.Prelude.{◌≡◌, List, ◌≤◌, T, ℤ, length};
ghost use Rattle.lists.specs.Overwritten.{overwrite};
ghost use Rattle.rules.specs.Limits.{column_count};
ghost use Rattle.rules.specs.Calls.{zeros};
ghost use Rattle.rules.specs.Elimination as Elimination;
ghost use Rattle.rules.specs.Stores as Stores;
ghost use Rattle.roots.specs.RootSearch.{answered};
ghost use Rattle.stores.specs.Validity.{the_sizes_of};
ghost use Rattle.working_rows.specs.Found.{Columns};
ghost use Rattle.sides.specs.Lent.{Within};
ghost use Rattle.sides.specs.FurthestRoots.{further_of};
ghost use Rattle.sides.specs.ReportLaws.{settled_state};
ghost use Rattle.reduction.specs.Progress.{outcome_at, final_answer};
ghost use Rattle.reduction.specs.Answer.{run_answer};
ghost use Rattle.std.specs.Prelude.{ℕ, Ok};
ghost use Rattle.runs.specs.CallLaws.{Final};
ghost use Rattle.solutions.specs.SolutionAnswers.{last_root_of};
ghost use Rattle.solutions.specs.LargestRoots.{option_of};
ghost use Rattle.solutions.specs.LastIndices.{index_at, index_after, last_of};
ghost use Rattle.solutions.specs.TrailingCopies.{CopyRan};

use polynomials::lengths::COEFFICIENTS;
use reduction::step::Progress;
use refusals::Refusal;
use sides::Side;
use stores::lengths::{COLUMNS, RELATION, RELATIONS, ROW};

// The largest N (SCOPE 14.22).
const LARGEST: i64 = 15;

// The system is none for which the list is made (SCOPE 14.11, 14.12, 14.22).
const NOT_LISTED: u8 = 14;

// The number of the refusal or 0; whether there is an N; and which, 0 where there is none. `last_of` states what each case means.
#[derive(Drop)]
pub(crate) struct Last {
    pub refusal: u8,
    pub found: bool,
    pub index: usize,
}

// The larger of two answers.
fn larger(a: Option<i64>, b: Option<i64>) -> Option<i64>
    ensures { result ≡ answered (further_of Elimination.leading (option_of a) (option_of b)) }
{
    let Some(first) = a else {
        return b;
    };
    let Some(second) = b else {
        return a;
    };
    if first <= second { b } else { a }
}

// The largest integer at which a trailing diagonal polynomial vanishes, if there is one (SCOPE 14.21).
fn last_root(store: &[i64], settled: usize, order: [usize; COLUMNS], span: usize) -> Option<i64>
    requires { (settled ≤ column_count) × (span ≤ 4) × Columns order × Within (Stores.row_need settled) store.now }
    ensures { result ≡ answered (last_root_of span (settled_state settled store.now order)) }
{
    let mut answer = None;
    for (j, column) in order[..settled].iter().enumerate() {
        let from = sides::report::diagonal_at(j, *column, Side::Trailing, span);
        let to = from + COEFFICIENTS;
        let most = multiplicities::largest_with(&store[from..to]);
        answer = larger(answer, most.map(|root| root.value));
    }
    answer
}

// N from 0 to 15; none below, and a refusal above (SCOPE 14.22).
fn index_at(n: i64) -> Last
    ensures { last_of result ≡ index_at n }
{
    if n < 0 {
        return Last {
            refusal: 0,
            found: false,
            index: 0,
        };
    }
    if LARGEST < n {
        return Last {
            refusal: NOT_LISTED,
            found: false,
            index: 0,
        };
    }
    Last {
        refusal: 0,
        found: true,
        index: n as usize,
    }
}

// N by the rows that the trailing run has left: its rank is to be m, and N is the largest root plus t (SCOPE 14.12, 14.21).
fn index_after(rows: &[i64], sizes: stores::validity::Sizes, p: Progress) -> Last
    requires { T (Stores.sizes_right_of (the_sizes_of sizes)) × Final Elimination.trailing (Stores.span (the_sizes_of sizes)) rows.now (run_answer (Ok p) p) }
    ensures { (relations : List ℤ) → last_of result ≡ index_after (the_sizes_of sizes) (outcome_at rows.now relations (run_answer (Ok p) p)) }
{
    let settled = p.settled;
    let m = sizes.m;
    if settled != m {
        return Last {
            refusal: NOT_LISTED,
            found: false,
            index: 0,
        };
    }
    let order = p.order;
    let span = stores::validity::span(sizes);
    let Some(root) = last_root(rows, settled, order, span) else {
        return Last {
            refusal: 0,
            found: false,
            index: 0,
        };
    };
    index_at(root + sizes.t)
}

// The same by what the run came to.
fn index_by(rows: &[i64], sizes: stores::validity::Sizes, o: Result<Progress, Refusal>) -> Last
    requires { T (Stores.sizes_right_of (the_sizes_of sizes)) × Final Elimination.trailing (Stores.span (the_sizes_of sizes)) rows.now (final_answer sizes.equations o) }
    ensures { (relations : List ℤ) → last_of result ≡ index_after (the_sizes_of sizes) (outcome_at rows.now relations (final_answer sizes.equations o)) }
{
    match o {
        Ok(p) => index_after(rows, sizes, p),
        Err(refusal) => Last {
            refusal: refusal.number(),
            found: false,
            index: 0,
        },
    }
}

// How many relations a run leaves: a refused one leaves none.
fn listed_by(o: Result<Progress, Refusal>) -> usize
    ensures { (equations : ℕ) → result ≡ (final_answer equations o).progress.count }
{
    match o {
        Ok(p) => p.count,
        Err(_) => 0,
    }
}

// The trailing run on a copy of the system's stores. The relations that are not there are zeros (SCOPE 3.13), which are written and not
// copied.
fn copy_run(
    rows: &[i64],
    relations: &[i64],
    sizes: stores::validity::Sizes,
    count: usize,
    work_rows: &mut [i64],
    work_relations: &mut [i64],
) -> Result<Progress, Refusal>
    requires relations_value { Stores.check_stores_of (the_sizes_of sizes) count rows.now relations.now ≡ 0 }
    requires equations_in_bounds { (Stores.row_need sizes.equations ≤ length work_rows.old) × (Stores.relation_need ≤ length work_relations.old) }
    ensures { CopyRan (the_sizes_of sizes) count rows.now relations.now work_rows.old
        work_relations.old work_rows.new work_relations.new (final_answer sizes.equations result) }
{
    let equations = sizes.equations;
    let need = equations * ROW;
    stores::rows::save(work_rows, 0, &rows[..need]);
    stores::rows::clear(work_relations, 0, RELATIONS);
    let given = count * RELATION;
    stores::rows::save(work_relations, 0, &relations[..given]);
    let span = stores::validity::span(sizes);
    runs::trailing_run(work_rows, work_relations, equations, span, count)
}

// N, by the trailing run in stores of its own, which end as zeros: the run leaves zeros behind the relations that it lists (SCOPE 14.2,
// 14.63).
pub(crate) fn last_index(
    rows: &[i64],
    relations: &[i64],
    sizes: stores::validity::Sizes,
    count: usize,
    work_rows: &mut [i64],
    work_relations: &mut [i64],
) -> Last
    requires relations_value { Stores.check_stores_of (the_sizes_of sizes) count rows.now relations.now ≡ 0 }
    requires equations_in_bounds { (Stores.row_need sizes.equations ≤ length work_rows.old) × (Stores.relation_need ≤ length work_relations.old) }
    ensures result_value { last_of result ≡ index_after (the_sizes_of sizes) (Elimination.whole_run_of Elimination.trailing (Stores.span (the_sizes_of sizes))
        (Stores.rows_of sizes.equations rows.now) (Stores.relations_of count relations.now)) }
    ensures work_rows_after { work_rows.new ≡ overwrite (zeros (Stores.row_need sizes.equations)) work_rows.old }
    ensures work_relations_after { work_relations.new ≡ overwrite (zeros Stores.relation_need) work_relations.old }
{
    let o = copy_run(rows, relations, sizes, count, work_rows, work_relations);
    let listed = listed_by(o) * RELATION;
    let last = index_by(work_rows, sizes, o);
    stores::rows::clear(work_rows, 0, sizes.equations * ROW);
    stores::rows::clear(work_relations, 0, listed);
    last
}
