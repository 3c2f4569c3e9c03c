// The whole run over checked stores: at most `enough` steps, and what is left of a run that is refused.
ghost use Rattle.std.specs.Prelude.{◌≡◌, ◌+◌, ◌*◌, ◌≤◌, T, length};
ghost use Rattle.lists.specs.Overwritten.{overwrite};
ghost use Rattle.lists.specs.Tests.{every};
ghost use Rattle.rules.specs.Calls.{zeros};
ghost use Rattle.rules.specs.Limits.{column_count, most_equations, most_relations, most_span, relation_length};
ghost use Rattle.rules.specs.Stores.{row_need, rows_of, unused_zero_of};
ghost use Rattle.sides.specs.Lent.{Within, Listing, side_of};
ghost use Rattle.reduction.specs.Answer.{run_answer};
ghost use Rattle.reduction.specs.Progress.{most_steps, Came, Reached, final_answer};
ghost use Rattle.reduction.specs.Ran.{run_of, answer_for_of, rows_after_of, relations_after_of};

use crate::step::{Progress, Stop};
use refusals::Refusal;
use sides::Side;
use stores::lengths::{RELATION, ROW};

// A bound on the steps that no run reaches (SCOPE 3.24): a settling or a dropping and five shifts for each row, and every settled row
// before each of those.
pub fn enough(equations: usize) -> usize
    requires { equations ≤ most_equations }
    ensures { result ≡ (equations + 1) * (equations + equations * 5) }
{
    (equations + 1) * (equations + equations * 5)
}

// Step after step, up to a refusal, or as long as a row is not settled; the run is done if all that are left are.
fn steps(
    rows: &mut [i64],
    relations: &mut [i64],
    equations: usize,
    side: Side,
    count: usize,
    span: usize,
) -> Result<Progress, Stop>
    requires equations_le_most_equations { (equations ≤ most_equations) × Within (row_need equations) rows.old × Listing count relations.old }
    requires span_le_most_span { (span ≤ most_span) × T (every (unused_zero_of column_count span) (rows_of equations rows.old)) }
    ensures { Came run_answer equations rows.old relations.old rows.new relations.new most_steps result
        (run_of (side_of side) equations count rows.old relations.old) }
{
    let mut p = Progress::start(equations, count);
    let most = enough(equations);
    for _ in 0..most {
        if p.is_done() {
            return Ok(p);
        }
        p = crate::step::step(rows, relations, side, span, p)?;
    }
    Ok(p)
}

// Zeros in the places of the rows and in those of the relations that are listed. The places behind these hold 0 already (SCOPE 3.13), so that
// a refused run leaves zeros in the needed parts of both stores (SCOPE 6.33).
pub fn clear(rows: &mut [i64], relations: &mut [i64], equations: usize, listed: usize)
    requires { (equations ≤ most_equations) × (row_need equations ≤ length rows.old)
        × (listed ≤ most_relations) × (listed * relation_length ≤ length relations.old) }
    ensures rows_after { rows.new ≡ overwrite (zeros (row_need equations)) rows.old }
    ensures relations_after { relations.new ≡ overwrite (zeros (listed * relation_length)) relations.old }
{
    stores::rows::clear(rows, 0, equations * ROW);
    stores::rows::clear(relations, 0, listed * RELATION);
}

// A refused run leaves zeros (SCOPE 6.33).
pub fn run(
    rows: &mut [i64],
    relations: &mut [i64],
    equations: usize,
    side: Side,
    count: usize,
    span: usize,
) -> Result<Progress, Refusal>
    requires equations_le_most_equations { (equations ≤ most_equations) × Within (row_need equations) rows.old × Listing count relations.old }
    requires span_le_most_span { (span ≤ most_span) × T (every (unused_zero_of column_count span) (rows_of equations rows.old)) }
    ensures value { final_answer equations result ≡ answer_for_of equations (run_of (side_of side) equations count rows.old relations.old) }
    ensures rows_after { rows.new
        ≡ rows_after_of equations (run_of (side_of side) equations count rows.old relations.old) rows.old }
    ensures relations_after { relations.new
        ≡ relations_after_of (run_of (side_of side) equations count rows.old relations.old) relations.old }
    ensures reached { Reached equations rows.old relations.old rows.new relations.new most_steps (final_answer equations result)
        (run_of (side_of side) equations count rows.old relations.old) }
{
    match steps(rows, relations, equations, side, count, span) {
        Ok(p) => Ok(p),
        Err(stop) => {
            clear(rows, relations, equations, stop.progress.count);
            Err(stop.refusal)
        }
    }
}
