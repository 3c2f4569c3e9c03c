// A run on stores: their checks, the run on the side asked for, and what it leaves in them and gives back. `elimination` has the public
// entry points.
#![tactic(auto)]

ghost use Rattle.std.specs.Prelude.{◌≡◌, List, ℕ, ◌≤◌, T, ℤ, length, take, IfOk};
ghost use Rattle.rules.specs.Limits.{column_count, most_equations};
ghost use Rattle.rules.specs.Elimination as Elimination;
ghost use Rattle.lists.specs.Tests.{every};
ghost use Rattle.rules.specs.Stores.{rows_of, relations_of, row_need, sizes_right_of, span, unused_zero_of, check_stores_of};
ghost use Rattle.rules.specs.Calls as Calls;
ghost use Rattle.working_rows.specs.Found.{Columns};
ghost use Rattle.stores.specs.Validity.{the_sizes_of};
ghost use Rattle.sides.specs.Lent.{side_of, Within, Listing};
ghost use Rattle.sides.specs.FurthestRoots.{Nonzero};
ghost use Rattle.sides.specs.ReportLaws.{settled_state};
ghost use Rattle.reduction.specs.Progress.{state_of, outcome_in, final_answer};
ghost use Rattle.reduction.specs.Ran.{Ran};
ghost use Rattle.runs.specs.CallLaws.{result_of, call_of, result_after_of, FinalIn, RanOn};
ghost use Rattle.runs.specs.Unreported.{unreported_of, unreported_in, unreported_call_of, unreported_call};

use multiplicities::Root;
use reduction::step::{Progress, SPAN};
use refusals::Refusal;
use sides::Side;

// What a run that accepts has come to: how many relations the store holds, how many shifts were made, the columns of the settled rows,
// counted from 1, with zeros past the last, the root with how often it occurs in the product of the diagonal polynomials, if there is one, and
// the rank (SCOPE 2.82, 2.83, 3.22, 3.23).
#[derive(Clone, Copy)]
pub struct RunReport {
    pub relations: usize,
    pub shifts: usize,
    pub order: [usize; 4],
    pub root: Option<Root>,
    pub rank: usize,
}

// Columns counted from 1, zeros past the last (SCOPE 3.23).
pub fn counted(order: [usize; 4], settled: usize) -> [usize; 4]
    requires { (settled ≤ column_count) × Columns order }
    ensures { result ≡ Calls.reported_order (take settled order) }
{
    let mut result = [0; 4];
    for j in 0..settled {
        result[j] = order[j] + 1;
    }
    result
}

// The result of a run that accepts: the rows that are left are settled, and no diagonal polynomial is zero (SCOPE 2.81, 2.83, 3.22).
pub fn accepted(rows: &[i64], span: usize, side: Side, p: Progress) -> RunReport
    requires span_bound { (span ≤ 4) × (p.settled ≤ column_count) × Within (row_need p.settled) rows.now × (p.rows ≡ p.settled) }
    requires order_len { (length p.order ≡ column_count) × Columns p.order }
    requires nonzero { Nonzero (Elimination.diagonal (side_of side) span (settled_state p.settled rows.now p.order)) }
    ensures { (relations : List ℤ)
        → result_of (Ok result) ≡ Calls.acceptance (side_of side) span (state_of rows.now relations p) }
{
    let settled = p.settled;
    let order = p.order;
    let report = sides::report::report(rows, settled, order, side, span);
    RunReport {
        relations: p.count,
        shifts: p.shifts,
        order: counted(order, settled),
        root: report,
        rank: settled,
    }
}

// The trailing side: the system is mirrored, goes through the rules, and what is left is mirrored again (SCOPE 2.91, 2.94). The relations
// that are there before the run are not looked at by it, and would be mirrored twice, which leaves them as they are.
pub fn trailing_run(
    rows: &mut [i64],
    relations: &mut [i64],
    equations: usize,
    span: usize,
    count: usize,
) -> Result<Progress, Refusal>
    requires { (equations ≤ most_equations) × (span ≤ 4) × Within (row_need equations) rows.old × Listing count relations.old }
    ensures { Ran equations rows.old relations.old rows.new relations.new (final_answer equations result)
        (Elimination.trailing_run_of span (rows_of equations rows.old) (relations_of count relations.old)) }
{
    sides::mirror::mirror_rows(rows, equations, span);
    let p = reduction::run::run(rows, relations, equations, Side::Trailing, count, SPAN)?;
    sides::mirror::mirror_rows(rows, p.rows, span);
    sides::mirror::mirror_relations(relations, count, p.count, span);
    Ok(p)
}

fn whole_run(
    rows: &mut [i64],
    relations: &mut [i64],
    equations: usize,
    span: usize,
    side: Side,
    count: usize,
) -> Result<Progress, Refusal>
    requires equations_le_most_equations { (equations ≤ most_equations) × (span ≤ 4) × Within (row_need equations) rows.old × Listing count relations.old }
    requires t { T (every (unused_zero_of column_count span) (rows_of equations rows.old)) }
    ensures { Ran equations rows.old relations.old rows.new relations.new (final_answer equations result)
        (Elimination.whole_run_of (side_of side) span (rows_of equations rows.old) (relations_of count relations.old)) }
{
    match side {
        Side::Leading => reduction::run::run(
            rows,
            relations,
            equations,
            Side::Leading,
            count,
            span,
        ),
        Side::Trailing => trailing_run(rows, relations, equations, span, count),
    }
}

// The result of a run that has ended. The stores are as the call leaves them: they hold the output, or zeros after a
// refusal (SCOPE 3.21, 6.33).
pub fn ended(
    rows: &[i64],
    sizes: stores::validity::Sizes,
    side: Side,
    run: Result<Progress, Refusal>,
) -> Result<RunReport, Refusal>
    requires { T (sizes_right_of (the_sizes_of sizes)) × FinalIn (side_of side) (span (the_sizes_of sizes)) rows.now run }
    ensures { (relations : List ℤ)
        → result_of result ≡ result_after_of (side_of side) (span (the_sizes_of sizes)) (outcome_in rows.now relations run) }
{
    let p = run?;
    Ok(accepted(rows, stores::validity::span(sizes), side, p))
}

// A run on stores that pass the checks, and how it ended.
fn checked_run(
    rows: &mut [i64],
    relations: &mut [i64],
    sizes: stores::validity::Sizes,
    count: usize,
    side: Side,
) -> Result<Progress, Refusal>
    requires { check_stores_of (the_sizes_of sizes) count rows.old relations.old ≡ 0 }
    ensures { RanOn (side_of side) (the_sizes_of sizes) count rows.old relations.old rows.new
        relations.new (final_answer sizes.equations result) }
{
    let equations = sizes.equations;
    let span = stores::validity::span(sizes);
    whole_run(rows, relations, equations, span, side, count)
}

// A run on lent stores: the checks, and the run (SCOPE 3.21, 3.31).
pub fn called(
    rows: &mut [i64],
    relations: &mut [i64],
    sizes: stores::validity::Sizes,
    count: usize,
    side: Side,
) -> Result<RunReport, Refusal>
    ensures { call_of result rows.new relations.new
        ≡ Calls.call_run (side_of side) (the_sizes_of sizes) count rows.old relations.old }
{
    stores::validity::check_stores(rows, relations, sizes, count)?;
    let run = checked_run(rows, relations, sizes, count, side);
    ended(rows, sizes, side, run)
}

// What a run that accepts has come to, without the shifts and the root report, which no sheet says (SCOPE 5.14).
#[derive(Clone, Copy)]
pub struct Unreported {
    pub relations: usize,
    pub order: [usize; 4],
    pub rank: usize,
}

// That of a run that has ended.
fn without_report(run: Result<Progress, Refusal>) -> Result<Unreported, Refusal>
    requires { IfOk run (λ p. (p.settled ≤ column_count) × (length p.order ≡ column_count) × Columns p.order × (p.rows ≤ p.settled)) }
    ensures { (side : Elimination.Side) (D : ℕ) (rows relations : List ℤ)
        → unreported_of result ≡ unreported_in (result_after_of side D (outcome_in rows relations run)) }
{
    let p = run?;
    Ok(Unreported {
        relations: p.count,
        order: counted(p.order, p.settled),
        rank: p.settled,
    })
}

// A run on the leading side, on stores that pass the checks, for a caller that wants no report.
pub fn leading_run(
    rows: &mut [i64],
    relations: &mut [i64],
    sizes: stores::validity::Sizes,
    count: usize,
) -> Result<Unreported, Refusal>
    requires { check_stores_of (the_sizes_of sizes) count rows.old relations.old ≡ 0 }
    ensures { unreported_call_of result rows.new relations.new
        ≡ unreported_call (Calls.call_run Elimination.leading (the_sizes_of sizes) count rows.old relations.old) }
{
    let run = checked_run(rows, relations, sizes, count, Side::Leading);
    without_report(run)
}
