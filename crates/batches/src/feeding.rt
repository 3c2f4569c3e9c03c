// Bytes of a batch, worked to where more bytes are missing or the next answer has no room.
ghost use Rattle.std.specs.Prelude.{◌≡◌, true, false, ◌≤◌, length};
ghost use Rattle.rules.specs.Stores.{largest_rows, relation_need};
ghost use Rattle.rules.specs.Calls.{zeros};
ghost use Rattle.frames.specs.Pieces.{Counted};
ghost use Rattle.batches.specs.Feeds.{breaking_at, answer_step, step, feed_sheets, feed_count, fed_by, feed_call};
ghost use Rattle.batches.specs.Turns.{fed_of, stopped_of, turn_of, turn_by, sheet_in};

use crate::Stage;

// What the bytes came to: the stage and the batch after them, the bytes that were taken, the bytes written at the front of the output;
// `full` says that the next answer does not fit.
#[derive(Drop)]
#[derive(Clone, Copy)]
pub(crate) struct Fed {
    pub stage: Stage,
    pub batch: frames::Batch,
    pub taken: usize,
    pub written: usize,
    pub full: bool,
}

// Nothing is taken: more bytes are missing, or the next answer does not fit.
fn nothing(stage: Stage, batch: frames::Batch, full: bool) -> Fed
    ensures { result ≡ record { stage = stage; batch = batch; taken = 0; written = 0; full = full } }
{
    Fed {
        stage,
        batch,
        taken: 0,
        written: 0,
        full,
    }
}

// A batch that is broken: `3` is written, and whatever comes is passed over (SCOPE 5.21).
fn breaking(stage: Stage, batch: frames::Batch, bytes: &[u8], output: &mut [u8]) -> Fed
    ensures { fed_of result output.new
        ≡ fed_by (breaking_at stage batch bytes.now (length output.old)) bytes.now output.old }
{
    let line = frames::refusal_line(3);
    let written = line.length;
    if output.len() < written {
        return nothing(stage, batch, true);
    }
    placed_answers::put_text(output, line);
    Fed {
        stage: Stage::Over,
        batch,
        taken: bytes.len(),
        written,
        full: false,
    }
}

// One sheet: `going` says that it was answered, and the next may follow.
#[derive(Drop)]
struct Turn {
    going: bool,
    fed: Fed,
}

fn stopped(fed: Fed) -> Turn
    ensures { result ≡ stopped_of fed }
{
    Turn { going: false, fed }
}

// A sheet of a client that is there whole, from one place up to another.
fn sheet_turn(
    batch: frames::Batch,
    client: usize,
    bytes: &[u8],
    from: usize,
    to: usize,
    output: &mut [u8],
    rows: &mut [i64],
    relations: &mut [i64],
) -> Turn
    requires { (from ≤ to) × (to ≤ length bytes.now) × (rows.old ≡ zeros largest_rows) × (relations.old ≡ zeros relation_need) }
    ensures output_after { turn_of result output.new
        ≡ turn_by
        (answer_step (sheet_in bytes.now from to) client batch bytes.now (length output.old) to)
        bytes.now output.old }
    ensures rows_unchanged { (rows.new ≡ rows.old) × (relations.new ≡ relations.old) }
{
    let put = placed_answers::put_answer(&bytes[from..to], output, rows, relations);
    if !put.fits {
        return stopped(nothing(Stage::Sheets, batch, true));
    }
    Turn {
        going: true,
        fed: Fed {
            stage: Stage::Sheets,
            batch: frames::counted(batch, client, put.refusal),
            taken: to,
            written: put.written,
            full: false,
        },
    }
}

// The next sheet, or what stands in its place.
fn next_turn(
    batch: frames::Batch,
    bytes: &[u8],
    output: &mut [u8],
    rows: &mut [i64],
    relations: &mut [i64],
) -> Turn
    requires { (rows.old ≡ zeros largest_rows) × (relations.old ≡ zeros relation_need) }
    ensures output_after { turn_of result output.new
        ≡ turn_by (step batch bytes.now (length output.old)) bytes.now output.old }
    ensures rows_unchanged { (rows.new ≡ rows.old) × (relations.new ≡ relations.old) }
{
    if batch.left == 0 {
        if bytes.len() == 0 {
            return stopped(nothing(Stage::Sheets, batch, false));
        }
        return stopped(breaking(Stage::Sheets, batch, bytes, output));
    }
    let line = frames::line(bytes);
    if line.refusal == 4 {
        return stopped(nothing(Stage::Sheets, batch, false));
    }
    if line.refusal != 0 {
        return stopped(breaking(Stage::Sheets, batch, bytes, output));
    }
    let from = line.taken;
    if bytes.len() - from < line.bytes {
        return stopped(nothing(Stage::Sheets, batch, false));
    }
    let to = from + line.bytes;
    sheet_turn(batch, line.client, bytes, from, to, output, rows, relations)
}

// Every sheet that is there whole, as far as the answers fit.
pub(crate) fn sheets(
    batch: frames::Batch,
    bytes: &[u8],
    output: &mut [u8],
    rows: &mut [i64],
    relations: &mut [i64],
) -> Fed
    requires { Counted batch × (rows.old ≡ zeros largest_rows) × (relations.old ≡ zeros relation_need) }
    ensures output_after { fed_of result output.new
        ≡ fed_by (feed_sheets batch bytes.now (length output.old)) bytes.now output.old }
    ensures rows_unchanged { (rows.new ≡ rows.old) × (relations.new ≡ relations.old) }
{
    let mut b = batch;
    let mut at = 0;
    let mut out = 0;
    // No count: the sheets go on as far as the answers fit.
    loop {
        let t = next_turn(b, &bytes[at..], &mut output[out..], rows, relations);
        let fed = t.fed;
        at += fed.taken;
        out += fed.written;
        b = fed.batch;
        if !t.going {
            let stage = fed.stage;
            return Fed {
                stage,
                batch: b,
                taken: at,
                written: out,
                full: fed.full,
            };
        }
    }
}

// The line with the sheet count, and the sheets after it.
fn counting(
    batch: frames::Batch,
    bytes: &[u8],
    output: &mut [u8],
    rows: &mut [i64],
    relations: &mut [i64],
) -> Fed
    requires { (rows.old ≡ zeros largest_rows) × (relations.old ≡ zeros relation_need) }
    ensures output_after { fed_of result output.new
        ≡ fed_by (feed_count batch bytes.now (length output.old)) bytes.now output.old }
    ensures rows_unchanged { (rows.new ≡ rows.old) × (relations.new ≡ relations.old) }
{
    let begun = frames::begin(bytes);
    if begun.refusal == 4 {
        return nothing(Stage::Count, batch, false);
    }
    if begun.refusal != 0 {
        return breaking(Stage::Count, batch, bytes, output);
    }
    let from = begun.taken;
    let b = begun.batch;
    let fed = sheets(b, &bytes[from..], output, rows, relations);
    let stage = fed.stage;
    let after = fed.batch;
    Fed {
        stage,
        batch: after,
        taken: from + fed.taken,
        written: fed.written,
        full: fed.full,
    }
}

// The bytes, worked on from a stage of the batch.
pub(crate) fn feed(
    stage: Stage,
    batch: frames::Batch,
    bytes: &[u8],
    output: &mut [u8],
    rows: &mut [i64],
    relations: &mut [i64],
) -> Fed
    requires { Counted batch × (rows.old ≡ zeros largest_rows) × (relations.old ≡ zeros relation_need) }
    ensures output_after { fed_of result output.new ≡ feed_call stage batch bytes.now output.old }
    ensures rows_unchanged { (rows.new ≡ rows.old) × (relations.new ≡ relations.old) }
{
    match stage {
        Stage::Count => counting(batch, bytes, output, rows, relations),
        Stage::Sheets => sheets(batch, bytes, output, rows, relations),
        Stage::Over => Fed {
            stage: Stage::Over,
            batch,
            taken: bytes.len(),
            written: 0,
            full: false,
        },
    }
}
