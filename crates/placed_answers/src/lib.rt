// The answer to one sheet, put at the front of the output; and an output without one.
#![tactic(auto)]

ghost use Rattle.std.specs.Prelude.{◌≡◌, true, false, ◌+◌, ◌≤◌, length, take, replicate};
ghost use Rattle.rules.specs.Stores.{largest_rows, relation_need};
ghost use Rattle.rules.specs.Calls.{zeros};
ghost use Rattle.lists.specs.Overwritten.{overwrite};
ghost use Rattle.rules.specs.Batch.{most_bytes, answer_sheet};
ghost use Rattle.frames.specs.Pieces.{text_room};
ghost use Rattle.placed_answers.specs.Answering.{put_of, answer_put};

// `fits` says that there was room for the answer; only then is it written, and its refusal, or 0, told.
#[derive(Drop)]
pub struct Put {
    pub fits: bool,
    pub refusal: u8,
    pub written: usize,
}

// The line `0` before a sheet that answers (SCOPE 5.11).
const ACCEPTED: usize = 2;

// The largest sheet that answers (SCOPE 5.13).
const SHEET: usize = answers::SHEET;

// The longest answer: that line and that sheet.
pub const ANSWER: usize = ACCEPTED + SHEET;

// An output that is zero, as one that was too short is left (SCOPE 5.32).
pub fn clear(output: &mut [u8])
    ensures { output.new ≡ replicate (length output.old) 0 }
{
    output.fill(0);
}

// The source at the front of the target, which has room for it: the number of bytes copied.
pub fn copy(source: &[u8], target: &mut [u8]) -> usize
    requires { length source.now ≤ length target.old }
    ensures count { result ≡ length source.now }
    ensures target_after { target.new ≡ overwrite source.now target.old }
{
    let count = source.len();
    target[..count].copy_from_slice(source);
    count
}

// Lines of text at the front of the output.
pub fn put_text(output: &mut [u8], text: frames::Text)
    requires { (text.length ≤ text_room) × (text.length ≤ length output.old) }
    ensures { output.new ≡ overwrite (take text.length text.bytes) output.old }
{
    let length = text.length;
    let lines = text.bytes;
    copy(&lines[..length], output);
}

// The answer worked out beside the output, and copied where it fits.
fn put_beside(sheet: &[u8], output: &mut [u8], rows: &mut [i64], relations: &mut [i64]) -> Put
    requires { (rows.old ≡ zeros largest_rows) × (relations.old ≡ zeros relation_need) }
    ensures output_after { put_of result output.new ≡ answer_put (answer_sheet sheet.now) output.old }
    ensures rows_unchanged { (rows.new ≡ rows.old) × (relations.new ≡ relations.old) }
{
    let mut beside = [0u8; SHEET];
    let answer = answers::answer_in(sheet, rows, relations, &mut beside);
    let line = frames::refusal_line(answer.refusal);
    let from = line.length;
    let length = answer.length;
    let written = from + length;
    if output.len() < written {
        return Put {
            fits: false,
            refusal: 0,
            written: 0,
        };
    }
    copy(&beside[..length], &mut output[from..]);
    put_text(output, line);
    Put {
        fits: true,
        refusal: answer.refusal,
        written,
    }
}

// Refusal 1 in a room shorter than that of the longest answer may be the room's, and then the answer is another.
fn undecided(refusal: u8, room: usize) -> bool
    ensures { (result ≡ false → refusal ≡ 1 → 2 + most_bytes ≤ room) × (result ≡ true → refusal ≡ 1) }
{
    refusal == 1 && room < ANSWER
}

// The sheet goes to its place behind the line `0`, and then the line before it. Only where the output has too little room for that, or for
// some line, is the answer worked out beside it.
pub fn put_answer(sheet: &[u8], output: &mut [u8], rows: &mut [i64], relations: &mut [i64]) -> Put
    requires { (rows.old ≡ zeros largest_rows) × (relations.old ≡ zeros relation_need) }
    ensures output_after { put_of result output.new ≡ answer_put (answer_sheet sheet.now) output.old }
    ensures rows_unchanged { (rows.new ≡ rows.old) × (relations.new ≡ relations.old) }
{
    if output.len() < frames::TEXT {
        return put_beside(sheet, output, rows, relations);
    }
    let answer = answers::answer_in(sheet, rows, relations, &mut output[ACCEPTED..]);
    if undecided(answer.refusal, output.len()) {
        return put_beside(sheet, output, rows, relations);
    }
    let line = frames::refusal_line(answer.refusal);
    let written = line.length + answer.length;
    put_text(output, line);
    Put {
        fits: true,
        refusal: answer.refusal,
        written,
    }
}
