// The answer to one sheet: read, run on the leading side and written, in stores that the caller lends. `batches` has the public entry
// point.
#![tactic(auto)]

ghost use Rattle.std.specs.Prelude.{◌≡◌, ◌+◌, ◌*◌, ◌≤◌, min, pos, length, replicate};
ghost use Rattle.std.proofs.Math.Seq.{paste};
ghost use Rattle.rules.specs.Limits.{coefficient_count, relation_length, most_relations};
ghost use Rattle.rules.specs.Stores.{with_equations_of, largest_rows, relation_need};
ghost use Rattle.rules.specs.Calls.{zeros};
ghost use Rattle.rules.specs.Batch.{most_bytes};
ghost use Rattle.stores.specs.Validity.{the_sizes_of};
ghost use Rattle.answers.specs.Answers.{call_of, call_in, answer_call};
ghost use Rattle.answers.specs.ClearedRecords.{ZeroBetween};

use polynomials::lengths::COEFFICIENTS;
use refusals::Refusal;
use stores::lengths::{BLOCK, RELATION, ROW};
use stores::validity::Sizes;

// The bytes of the largest sheet that answers (SCOPE 5.13).
pub const SHEET: usize = 65536;

// The answer to one sheet: the refusal, or 0 and the number of bytes that the output begins with (SCOPE 5.31).
#[derive(Drop)]
pub struct AnswerResult {
    pub refusal: u8,
    pub length: usize,
}

fn no_answer(refusal: u8) -> AnswerResult
    ensures { result ≡ record { refusal = refusal; length = 0 } }
{
    AnswerResult { refusal, length: 0 }
}

// A sheet of more than 65,536 bytes is refusal 1: the writer is lent at most so many bytes (SCOPE 5.13).
fn lent_bytes(length: usize) -> usize
    ensures { result ≡ min length most_bytes }
{
    if length < SHEET { length } else { SHEET }
}

// The sizes of what a run leaves: as many equations as its rank (SCOPE 5.14).
fn with_equations(sizes: Sizes, equations: usize) -> Sizes
    ensures { the_sizes_of result ≡ with_equations_of equations (the_sizes_of sizes) }
{
    Sizes {
        m: sizes.m,
        equations,
        l: sizes.l,
        t: sizes.t,
    }
}

// So many records of one length cleared: of each its first numbers in use and its right side, between which it is zero.
fn clear_records(store: &mut [i64], size: usize, used: usize, count: usize)
    requires coefficient_count_bound { (used + coefficient_count ≤ size) × (size ≤ relation_length) × (count ≤ most_relations) }
    requires size_in_bounds { (count * size ≤ length store.old) × ZeroBetween size used count store.old }
    ensures { store.new ≡ paste store.old 0 (replicate (count * size) (pos 0)) (count * size) }
{
    for i in 0..count {
        let at = i * size;
        stores::rows::clear(store, at, used);
        let side = at + (size - COEFFICIENTS);
        stores::rows::clear(store, side, COEFFICIENTS);
    }
}

// The answer, worked out in stores of the largest sizes that are zero, and are zero again afterwards: only what was used is cleared.
// What was read passes the checks of a run, and what a run that accepts leaves passes those of the writer, so neither checks again. A
// run leaves the relations that it was given as they are (SCOPE 2.3), so their lines are copied from the sheet.
fn worked_out(
    bytes: &[u8],
    rows: &mut [i64],
    relations: &mut [i64],
    output: &mut [u8],
) -> Result<usize, Refusal>
    requires { (rows.old ≡ zeros largest_rows) × (relations.old ≡ zeros relation_need) }
    ensures output_after { call_in result output.new ≡ answer_call bytes.now output.old }
    ensures rows_unchanged { (rows.new ≡ rows.old) × (relations.new ≡ relations.old) }
{
    let own = reading::own::read_own(bytes, rows, relations)?;
    let sheet = own.sheet;
    let sizes = sheet.sizes;
    let run = runs::leading_run(rows, relations, sizes, sheet.relations)?;
    let order = run.order;
    let kept = with_equations(sizes, run.rank);
    let lent = lent_bytes(output.len());
    let from = own.from;
    let to = own.to;
    let written = writing::writer::write_given(
        rows,
        relations,
        kept,
        run.relations,
        order,
        &bytes[from..to],
        sheet.relations,
        &mut output[..lent],
    );
    let blocks = (stores::validity::span(kept) + 1) * BLOCK;
    clear_records(rows, ROW, blocks, run.rank);
    clear_records(relations, RELATION, 1 + blocks, run.relations);
    written
}

// The answer as it is told: a refusal by its number, with the length 0.
pub fn answer_in(
    bytes: &[u8],
    rows: &mut [i64],
    relations: &mut [i64],
    output: &mut [u8],
) -> AnswerResult
    requires { (rows.old ≡ zeros largest_rows) × (relations.old ≡ zeros relation_need) }
    ensures output_after { call_of result output.new ≡ answer_call bytes.now output.old }
    ensures rows_unchanged { (rows.new ≡ rows.old) × (relations.new ≡ relations.old) }
{
    match worked_out(bytes, rows, relations, output) {
        Ok(length) => AnswerResult { refusal: 0, length },
        Err(refusal) => no_answer(refusal.number()),
    }
}
