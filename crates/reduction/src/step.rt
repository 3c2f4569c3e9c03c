// One step of the elimination over the lent stores: what `step` of `rules` says of the state that the stores hold.
ghost use Rattle.std.specs.Prelude.{◌≡◌, not, ◌++◌, ◌+◌, ◌*◌, ◌-◌, ◌^◌, ◌≤◌, ◌<◌, leb, T, length, IfOk};
ghost use Rattle.algebra.specs.Polynomials.{is_zero_of};
ghost use Rattle.rules.specs.Limits.{coefficient_count, column_count, most_equations, most_span, entries_length, row_length, small};
ghost use Rattle.rules.specs.Rows.{entry};
ghost use Rattle.rules.specs.Rows as Rows;
ghost use Rattle.lists.specs.Tests.{every};
ghost use Rattle.rules.specs.Elimination as Elimination;
ghost use Rattle.rules.specs.Stores.{row_of};
ghost use Rattle.multiplicities.specs.Counts.{listed_with};
ghost use Rattle.refusals.specs.Refusals.{refusal_in};
ghost use Rattle.working_rows.specs.Working.{Full};
ghost use Rattle.working_rows.specs.Worked.{refusal_of, numbers_of};
ghost use Rattle.sides.specs.Lent.{side_of};
ghost use Rattle.reduction.specs.Answer.{told, progress_at, step_answer};
ghost use Rattle.reduction.specs.Progress.{Ready, Came, state_of, answer_of, start_progress, dropped_progress, settled_progress, shifted_progress};
ghost use Rattle.reduction.specs.NewRows.{saved, numbers_in};
ghost use Rattle.reduction.specs.Dropping.{dropped};
ghost use Rattle.reduction.specs.StoreExchange.{numbers_at, narrowed};
ghost use Rattle.reduction.specs.StepLaws.{met_entries, multipliers_of, shifted_row_of};
ghost use Rattle.reduction.specs.Unused.{Unused};

use multiplicities::RootsWith;
use polynomials::lengths::COEFFICIENTS;
use refusals::Refusal;
use sides::Side;
use stores::lengths::{BLOCKS, COLUMNS, ROW};
use working_rows::WorkingRow;

// The largest D (SCOPE 1.2).
pub const SPAN: usize = BLOCKS - 1;

// How far a run has come: the rows that are left, the settled ones with their columns, counted from 0, the relations listed and the
// shifts made.
#[derive(Clone, Copy)]
pub struct Progress {
    pub rows: usize,
    pub settled: usize,
    pub order: [usize; COLUMNS],
    pub count: usize,
    pub shifts: usize,
}

// A refusal, and how far the run had come at it: the stores are those of this progress.
#[derive(Clone, Copy)]
pub struct Stop {
    pub refusal: Refusal,
    pub progress: Progress,
}

impl Progress {
    // No row is settled at the start (SCOPE 2.2).
    pub fn start(equations: usize, count: usize) -> Progress
        ensures { result ≡ start_progress equations count }
    {
        Progress {
            rows: equations,
            settled: 0,
            order: [0; COLUMNS],
            count,
            shifts: 0,
        }
    }

    // A refusal at this progress.
    pub fn stopped(self, refusal: Refusal) -> Stop
        ensures { result ≡ record { refusal = refusal; progress = self } }
    {
        Stop {
            refusal,
            progress: self,
        }
    }

    // Are all rows that are left settled?
    pub fn is_done(self) -> bool
        ensures { result ≡ leb self.rows self.settled }
    {
        self.rows <= self.settled
    }

    // Rule 5: the row in turn is settled at c, the lowest column with a nonzero leading entry (SCOPE 2.51).
    fn with_settled(self, c: usize) -> Progress
        requires { (self.settled < column_count) × (length self.order ≡ column_count) }
        ensures { result ≡ settled_progress self c }
    {
        let mut order = self.order;
        order[self.settled] = c;
        Progress {
            settled: self.settled + 1,
            order,
            ..self
        }
    }
}

// The new row in the place of row i, or the refusal at the same progress.
pub fn put_limited(
    rows: &mut [i64],
    i: usize,
    worked: Result<WorkingRow, Refusal>,
    next: Progress,
) -> Result<Progress, Stop>
    requires { (i * row_length + row_length ≤ length rows.old) × IfOk worked Full }
    ensures rows_after { rows.new ≡ saved rows.old i (refusal_in worked) (numbers_in worked) }
    ensures value { step_answer (told result) (progress_at result) ≡ answer_of (refusal_in worked) next }
{
    match worked {
        Ok(row) => {
            working_rows::stored::save(rows, i * ROW, row);
            Ok(next)
        }
        Err(refusal) => Err(next.stopped(refusal)),
    }
}

// The multipliers of rule 2, from the entries of both rows in column c, put into g and h: the roots of g, each with how often it occurs
// (SCOPE 2.23 to 2.28, 2.84).
pub fn put_multipliers_at(
    g: &mut [i64],
    h: &mut [i64],
    target: &[i64],
    pivot: &[i64],
    c: usize,
) -> RootsWith
    requires g_len { (length g.old ≡ coefficient_count) × (length h.old ≡ coefficient_count) }
    requires c_lt_column_count { (c < column_count) × (entries_length ≤ length target.now) × (entries_length ≤ length pivot.now) }
    requires t { T (every small target.now) × T (every small pivot.now) }
    requires t_2 { T (not (is_zero_of (entry (row_of pivot.now) c ++ entry (row_of target.now) c))) }
    ensures g_after { g.new ≡ (multipliers_of c target.now pivot.now).g }
    ensures h_after { h.new ≡ (multipliers_of c target.now pivot.now).h }
    ensures value { result ≡ listed_with (Elimination.roots_with_of (multipliers_of c target.now pivot.now).g) }
{
    let from = c * COEFFICIENTS;
    let to = from + COEFFICIENTS;
    common_roots::put_multipliers(g, h, &pivot[from..to], &target[from..to])
}

// Rule 6: the blocks move up by one, with n + 1 for n, and the shift is counted (SCOPE 2.61, 2.63, 2.65).
fn shift_step(rows: &mut [i64], width: usize, p: Progress) -> Result<Progress, Stop>
    requires { (p.settled * row_length + row_length ≤ length rows.old) × T (every small (numbers_at rows.old p.settled))
        × (width ≡ Rows.width (row_of (numbers_at rows.old p.settled))) × (p.shifts < 2 ^ 32) }
    ensures rows_after { rows.new
        ≡ saved rows.old p.settled (refusal_of (shifted_row_of (numbers_at rows.old p.settled)))
        (numbers_of (shifted_row_of (numbers_at rows.old p.settled))) }
    ensures value { step_answer (told result) (progress_at result)
        ≡ answer_of (refusal_of (shifted_row_of (numbers_at rows.old p.settled))) (shifted_progress p) }
{
    let i = p.settled;
    let next = Progress {
        shifts: p.shifts + 1,
        ..p
    };
    let row = working_rows::stored::load(rows, i * ROW, width);
    put_limited(rows, i, working_rows::shifting::shifted(row), next)
}

// Rule 1: the row that is worked on is dropped; the later ones move up, and the place of the last one holds 0 (SCOPE 2.11).
fn drop_step(rows: &mut [i64], p: Progress) -> Progress
    requires { (p.rows ≤ most_equations) × (p.settled < p.rows) × (p.rows * row_length ≤ length rows.old) }
    ensures rows_after { rows.new ≡ dropped rows.old p.settled (p.rows - 1) }
    ensures value { result ≡ dropped_progress p }
{
    let i = p.settled;
    let last = p.rows - 1;
    crate::dropping::move_up(rows, i * ROW, (last - i) * ROW);
    stores::rows::clear(rows, last * ROW, ROW);
    Progress { rows: last, ..p }
}

// Rules 3 and 4 for the row that is worked on and settled row j, whose widths are known (SCOPE 2.31, 2.34, 2.41, 2.42, 2.47).
fn combine_step(
    rows: &mut [i64],
    relations: &mut [i64],
    side: Side,
    j: usize,
    width: usize,
    other: usize,
    p: Progress,
) -> Result<Progress, Stop>
    requires ready { Ready rows.old relations.old p × (p.settled < p.rows) × (j < p.settled) }
    requires t { T (not (is_zero_of (met_entries rows.old p j))) }
    requires width_value { (width ≡ Rows.width (row_of (numbers_at rows.old p.settled)))
        × (other ≡ Rows.width (row_of (numbers_at rows.old j))) }
    ensures { Came step_answer p.rows rows.old relations.old rows.new relations.new (p.shifts + 1) result
        (Elimination.combine_step_of (side_of side) (state_of rows.old relations.old p) p.settled j
        (Elimination.multipliers_at (state_of rows.old relations.old p) p.settled j)) }
{
    let i = p.settled;
    let c = p.order[j];
    let target = stores::rows::row_at(rows, i * ROW);
    let pivot = stores::rows::row_at(rows, j * ROW);
    let mut g = [0; COEFFICIENTS];
    let mut h = [0; COEFFICIENTS];
    let found = put_multipliers_at(&mut g, &mut h, target, pivot, c);
    let count = p.count + found.count;
    if 16 < count {
        return Err(p.stopped(Refusal::TooManyRelations));
    }
    sides::listing::list_roots(relations, p.count, found, side, target);
    let row = working_rows::stored::load(rows, i * ROW, width);
    let worked = combinations::combined(&g[..], &h[..], row, pivot, other);
    put_limited(rows, i, worked, Progress { count, ..p })
}

// Rule 2 for the row that is worked on and settled row j: if the settled row is the wider, the two change places first (SCOPE 2.22).
fn eliminate_step(
    rows: &mut [i64],
    relations: &mut [i64],
    side: Side,
    j: usize,
    width: usize,
    span: usize,
    p: Progress,
) -> Result<Progress, Stop>
    requires ready { Ready rows.old relations.old p × (p.settled < p.rows) × (j < p.settled)
        × (width ≡ Rows.width (row_of (numbers_at rows.old p.settled))) }
    requires t { T (not (is_zero_of (met_entries (narrowed rows.old p.settled j) p j))) × (span ≤ most_span)
        × Unused column_count span (state_of rows.old relations.old p) }
    ensures { Came step_answer p.rows rows.old relations.old rows.new relations.new (p.shifts + 1) result
        (Elimination.combine_step_of (side_of side)
        (state_of (narrowed rows.old p.settled j) relations.old p) p.settled j
        (Elimination.multipliers_at
        (state_of (narrowed rows.old p.settled j) relations.old p) p.settled j)) }
{
    let other = crate::looking::width_at(rows, j, span);
    if width < other {
        crate::exchanging::exchange(rows, p.settled, j, width, other);
        return combine_step(rows, relations, side, j, other, width, p);
    }
    combine_step(rows, relations, side, j, width, other, p)
}

// One dropped row, one exchange with its combination, one combination, one settling or one shift (SCOPE 2.2, 2.11, 2.12, 2.26). A step
// is taken only where a row is not settled. Of a row only the first span + 1 blocks are in use.
pub fn step(
    rows: &mut [i64],
    relations: &mut [i64],
    side: Side,
    span: usize,
    p: Progress,
) -> Result<Progress, Stop>
    requires ready { Ready rows.old relations.old p × (p.settled < p.rows) × (p.shifts < 2 ^ 32) }
    requires span_le_most_span { (span ≤ most_span) × Unused column_count span (state_of rows.old relations.old p) }
    ensures { Came step_answer p.rows rows.old relations.old rows.new relations.new (p.shifts + 1) result
        (Elimination.step (side_of side) (state_of rows.old relations.old p)) }
{
    let i = p.settled;
    let width = crate::looking::width_at(rows, i, span);
    if width == 0 {
        if crate::looking::side_zero_at(rows, i) {
            return Ok(drop_step(rows, p));
        }
        return Err(p.stopped(Refusal::Contradiction));
    }
    let j = crate::looking::met_at(rows, i, p.order, i);
    if j < i {
        return eliminate_step(rows, relations, side, j, width, span, p);
    }
    let c = crate::looking::column_at(rows, i);
    if c < COLUMNS {
        Ok(p.with_settled(c))
    } else {
        shift_step(rows, width, p)
    }
}
