// The end of a batch, and a whole batch.
ghost use Rattle.std.specs.Prelude.{◌≡◌, length, replicate};
ghost use Rattle.rules.specs.Stores.{largest_rows, relation_need};
ghost use Rattle.rules.specs.Calls.{zeros};
ghost use Rattle.frames.specs.Pieces.{text_of};
ghost use Rattle.batches.specs.PieceCalls.{output_of, end_text_of, put_text_of, output_call};

use crate::{OutputResult, Stage};

// What is still written at the end of the input: nothing after a broken batch (SCOPE 5.35).
fn end_text(stage: Stage, batch: frames::Batch, held: usize) -> frames::Text
    ensures { result ≡ text_of (end_text_of stage batch held) }
{
    match stage {
        Stage::Count => frames::refusal_line(3),
        Stage::Sheets => frames::close(batch, held),
        Stage::Over => frames::Text {
            bytes: [0; frames::TEXT],
            length: 0,
        },
    }
}

pub(crate) fn ending(
    stage: Stage,
    batch: frames::Batch,
    held: usize,
    output: &mut [u8],
) -> OutputResult
    ensures { output_of result output.new ≡ put_text_of (end_text_of stage batch held) output.old output.old }
{
    let text = end_text(stage, batch, held);
    let length = text.length;
    if output.len() < length {
        return OutputResult {
            refusal: 1,
            length: 0,
        };
    }
    placed_answers::put_text(output, text);
    OutputResult { refusal: 0, length }
}

// The output was too short: all of it is zero (SCOPE 5.32).
fn too_short(output: &mut [u8]) -> OutputResult
    ensures { (result ≡ record { refusal = 1; length = 0 }) × (output.new ≡ replicate (length output.old) 0) }
{
    placed_answers::clear(output);
    OutputResult {
        refusal: 1,
        length: 0,
    }
}

pub(crate) fn whole(
    input: &[u8],
    output: &mut [u8],
    rows: &mut [i64],
    relations: &mut [i64],
) -> OutputResult
    requires { (rows.old ≡ zeros largest_rows) × (relations.old ≡ zeros relation_need) }
    ensures { output_of result output.new ≡ output_call input.now output.old }
{
    let none = frames::uncounted(0);
    let fed = crate::feeding::feed(Stage::Count, none, input, output, rows, relations);
    if fed.full {
        return too_short(output);
    }
    let out = fed.written;
    let stage = fed.stage;
    let batch = fed.batch;
    let last = ending(stage, batch, input.len() - fed.taken, &mut output[out..]);
    if last.refusal != 0 {
        return too_short(output);
    }
    OutputResult {
        refusal: 0,
        length: out + last.length,
    }
}
