// Recorded vectors: does a system explain them? `check_record` is the public entry point: no `requires`, and a contract that gives the
// answer by one equation. It only reads what it is lent.
#![tactic(auto)]

ghost use Rattle.std.specs.Prelude.{◌≡◌, ◌&&◌, [], ◌∷◌, ◌+◌, ◌*◌, ◌-◌, ◌≤◌, ◌<◌, T, pos, nat_abs, ◌+ℤ◌, length, take, drop, get_or};
ghost use Rattle.std.specs.Int.Signed.{le_z, lt_z};
ghost use Rattle.lists.specs.Tests.{every};
ghost use Rattle.rules.specs.Limits.{column_count, most_span, most_equations, row_length, relation_length, block_bound, bound, small};
ghost use Rattle.rules.specs.Rows.{small_row};
ghost use Rattle.rules.specs.Stores as Stores;
ghost use Rattle.stores.specs.Validity.{the_sizes_of};
ghost use Rattle.evaluation.specs.Evaluated.{farthest};
ghost use Rattle.records.specs.Records as Records;
ghost use Rattle.records.specs.RecordAnswers.{answer_of};
ghost use Rattle.records.specs.Successive.{ZerosAt, AllKnown, stored_tests};

use refusals::Refusal;
use stores::lengths::{EQUATIONS, RELATION, ROW};
use sums::TESTS;

mod checks;
mod sums;
mod terms;

// What the tests of a record find (SCOPE 12.24): all fit, and how many were tested; or the first failure, by the number of its equation
// or relation, its index and its nonzero sum. `answer_of` states what each case means.
#[derive(Clone, Copy, Debug, PartialEq, Eq)]
pub enum Finding {
    Fits(usize),
    Equation(usize, i64, i64),
    Relation(usize, i64, i64),
}

// The sums of the equations at so many successive n, those of an equation behind those of the one before, and at how many n each is formed.
fn equation_sums(
    sums: &mut [i64],
    formed: &mut [usize],
    tests: usize,
    rows: &[i64],
    equations: usize,
    n: i64,
    values: &[i64],
    m: usize,
    span: usize,
)
    requires equations_in_bounds { (Stores.row_need equations ≤ length rows.now) × T (every small_row (Stores.rows_of equations rows.now))
        × (nat_abs n + tests ≤ farthest) }
    requires t { T (Records.values_right_of values.now) × ((span + tests) * m ≤ length values.now)
        × (m ≤ column_count) × (span ≤ most_span) × (0 < tests) }
    requires equations_le_most_equations { (equations ≤ most_equations) × (tests ≤ Records.most_vectors) × (length formed.old ≡ most_equations)
        × ZerosAt sums.old 0 (most_equations * Records.most_vectors) }
    ensures { AllKnown m span n values.now rows.now tests sums.new formed.new equations }
{
    for i in 0..equations {
        formed[i] = sums::row_sums(
            sums,
            i * TESTS,
            tests,
            stores::rows::row_at(rows, i * ROW),
            n,
            values,
            span,
            m,
            span,
        );
    }
}

// The equations at one n, that of number j, by number, after so many tests (SCOPE 12.22): their sums are there.
fn equations_at(
    sums: &[i64],
    formed: &[usize],
    equations: usize,
    j: usize,
    n: i64,
    before: usize,
) -> Result<Finding, Refusal>
    requires equations_le_most_equations { (equations ≤ most_equations) × (length formed.now ≡ most_equations) × (before + equations ≤ 1000) }
    requires most_equations_in_bounds { (most_equations * Records.most_vectors ≤ length sums.now) × (j < Records.most_vectors) }
    ensures { answer_of result
        ≡ Records.answer_to before (stored_tests n sums.now formed.now j 0 equations) }
{
    for i in 0..equations {
        if formed[i] <= j {
            return Err(Refusal::ValuePassed);
        }
        let sum = sums[i * TESTS + j];
        if sum != 0 {
            return Ok(Finding::Equation(i + 1, n, sum));
        }
    }
    Ok(Finding::Fits(before + equations))
}

// The n whose lowest block meets vector j (SCOPE 12.22).
fn index_from(sizes: stores::validity::Sizes, first: i64, j: usize) -> i64
    requires { T (Stores.sizes_right_of (the_sizes_of sizes)) × (nat_abs first ≤ Records.index_bound) × (j ≤ Records.most_vectors) }
    ensures value { result ≡ Records.index_from_of (the_sizes_of sizes) first j }
    ensures result_bound { nat_abs result + Records.most_vectors ≤ farthest }
{
    first - sizes.t + j as i64
}

// The equations by rising n (SCOPE 12.22).
fn equations_fit(
    rows: &[i64],
    sizes: stores::validity::Sizes,
    first: i64,
    vectors: usize,
    values: &[i64],
) -> Result<Finding, Refusal>
    requires t { T (Stores.sizes_right_of (the_sizes_of sizes)) × (nat_abs first ≤ Records.index_bound) × (vectors ≤ Records.most_vectors) }
    requires equations_in_bounds { (Stores.row_need sizes.equations ≤ length rows.now)
        × T (every small_row (Stores.rows_of sizes.equations rows.now)) }
    requires t_2 { T (Records.values_right_of values.now) × (vectors * sizes.m ≤ length values.now) }
    ensures { answer_of result ≡ Records.answer_to 0
        (Records.equation_tests (the_sizes_of sizes) first values.now (Stores.rows_of sizes.equations rows.now) 0
        (vectors - Stores.span (the_sizes_of sizes))) }
{
    let m = sizes.m;
    let equations = sizes.equations;
    let span = stores::validity::span(sizes);
    if vectors <= span {
        return Ok(Finding::Fits(0));
    }
    let tests = vectors - span;
    let mut sums = [0i64; EQUATIONS * TESTS];
    let mut formed = [0usize; EQUATIONS];
    equation_sums(
        &mut sums,
        &mut formed,
        tests,
        rows,
        equations,
        index_from(sizes, first, 0),
        values,
        m,
        span,
    );
    let mut tested = 0;
    for j in 0..tests {
        let n = index_from(sizes, first, j);
        let finding = equations_at(&sums, &formed, equations, j, n, tested)?;
        let Finding::Fits(k) = finding else {
            return Ok(finding);
        };
        tested = k;
    }
    Ok(Finding::Fits(tested))
}

// All blocks at n, up to l and down to t, lie in the record (SCOPE 12.22).
fn inside(l: i64, t: i64, first: i64, vectors: usize, n: i64) -> bool
    requires { (nat_abs l ≤ block_bound) × (nat_abs t ≤ block_bound) × (nat_abs first ≤ Records.index_bound)
        × (vectors ≤ Records.most_vectors) × (nat_abs n ≤ bound) }
    ensures { result ≡ (le_z first (n +ℤ t) && lt_z (n +ℤ l) (first +ℤ pos vectors)) }
{
    first <= n + t && n + l < first + vectors as i64
}

// One relation, after so many tests: it is tested where n0 is such an n (SCOPE 12.23).
fn relation_at(
    relations: &[i64],
    at: usize,
    number: usize,
    sizes: stores::validity::Sizes,
    first: i64,
    vectors: usize,
    values: &[i64],
    before: usize,
) -> Result<Finding, Refusal>
    requires t { T (Stores.sizes_right_of (the_sizes_of sizes)) × (nat_abs first ≤ Records.index_bound) × (vectors ≤ Records.most_vectors) }
    requires relation_length_in_bounds { (at + relation_length ≤ length relations.now) × (nat_abs (get_or relations.now at (pos 0)) ≤ bound)
        × T (every small (take row_length (drop (at + 1) relations.now))) }
    requires t_2 { T (Records.values_right_of values.now) × (vectors * sizes.m ≤ length values.now) × (before ≤ 1000) }
    ensures { answer_of result ≡ Records.answer_to before (Records.relation_tests (the_sizes_of sizes) first vectors values.now number
        (Stores.relation_of (take relation_length (drop at relations.now)) ∷ [])) }
{
    let m = sizes.m;
    let l = sizes.l;
    let t = sizes.t;
    let n = relations[at];
    if !inside(l, t, first, vectors, n) {
        return Ok(Finding::Fits(before));
    }
    let span = stores::validity::span(sizes);
    let top = (n + l - first) as usize;
    let row = stores::rows::row_at(relations, at + 1);
    let mut sums = [0i64; 1];
    if sums::row_sums(&mut sums, 0, 1, row, n, values, top, m, span) == 0 {
        return Err(Refusal::ValuePassed);
    }
    let sum = sums[0];
    if sum != 0 {
        return Ok(Finding::Relation(number, n, sum));
    }
    Ok(Finding::Fits(before + 1))
}

// The relations in their order (SCOPE 12.23).
fn relations_fit(
    relations: &[i64],
    count: usize,
    sizes: stores::validity::Sizes,
    first: i64,
    vectors: usize,
    values: &[i64],
    before: usize,
) -> Result<Finding, Refusal>
    requires t { T (Stores.sizes_right_of (the_sizes_of sizes)) × (nat_abs first ≤ Records.index_bound) × (vectors ≤ Records.most_vectors) }
    requires count_bound { (count ≤ 16) × (Stores.relation_need ≤ length relations.now)
        × T (every (Stores.relation_right_of (the_sizes_of sizes)) (Stores.relations_of count relations.now)) }
    requires t_2 { T (Records.values_right_of values.now) × (vectors * sizes.m ≤ length values.now) × (before ≤ 900) }
    ensures { answer_of result ≡ Records.answer_to before
        (Records.relation_tests (the_sizes_of sizes) first vectors values.now 1
        (Stores.relations_of count relations.now)) }
{
    let mut tested = before;
    for i in 0..count {
        let finding = relation_at(
            relations,
            i * RELATION,
            i + 1,
            sizes,
            first,
            vectors,
            values,
            tested,
        )?;
        let Finding::Fits(k) = finding else {
            return Ok(finding);
        };
        tested = k;
    }
    Ok(Finding::Fits(tested))
}

// Does the system explain the record? The stores are only read (SCOPE 12.1). There are `vectors` vectors of m numbers each, that of index
// `first` first.
pub fn check_record(
    rows: &[i64],
    relations: &[i64],
    sizes: stores::validity::Sizes,
    count: usize,
    first: i64,
    vectors: usize,
    values: &[i64],
) -> Result<Finding, Refusal>
    ensures { answer_of result ≡ Records.record_call (the_sizes_of sizes) count first vectors
        rows.now relations.now values.now }
{
    checks::check(rows, relations, sizes, count, first, vectors, values)?;
    let need = vectors * sizes.m;
    let record = &values[..need];
    let finding = equations_fit(rows, sizes, first, vectors, record)?;
    let Finding::Fits(tested) = finding else {
        return Ok(finding);
    };
    relations_fit(relations, count, sizes, first, vectors, record, tested)
}
