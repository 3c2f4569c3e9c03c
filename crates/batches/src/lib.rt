// Batches: the answer to one sheet, a whole batch on one slice, and a batch that comes in pieces. Every `pub fn` of this file is an entry
// point: no `requires`, and a contract that gives the result and every lent store by equations.
#![tactic(auto)]

ghost use Rattle.std.specs.Prelude.{◌≡◌};
ghost use Rattle.answers.specs.Answers as Answers;
ghost use Rattle.batches.specs.Feeds.{start_of};
ghost use Rattle.batches.specs.PieceCalls.{call_of, piece_call, output_of, end_call, output_call};

pub use answers::AnswerResult;
pub use pieces::HELD;
pub use placed_answers::ANSWER;
use stores::lengths::{RELATIONS, ROWS};

mod endings;
mod feeding;
mod pieces;

// What a batch that comes in pieces waits for: the line with its sheet count, its sheets, or nothing more, since it is
// broken (SCOPE 5.33).
#[derive(Drop)]
#[derive(Clone, Copy)]
pub enum Stage {
    Count,
    Sheets,
    Over,
}

// A batch that comes in pieces: the sheets to come with the answers so far, client by client, and the number of bytes that are held,
// which begin a line or a sheet.
#[derive(Drop)]
#[derive(Clone, Copy)]
pub struct Stream {
    pub stage: Stage,
    pub batch: frames::Batch,
    pub held: usize,
}

// What a piece came to: the refusal, or 0 and the batch after it, how many bytes of the piece were taken and how many were written.
#[derive(Drop)]
pub struct PieceResult {
    pub refusal: u8,
    pub stream: Stream,
    pub taken: usize,
    pub written: usize,
}

// The refusal, or 0 and the number of bytes that the output begins with.
#[derive(Drop)]
pub struct OutputResult {
    pub refusal: u8,
    pub length: usize,
}

// One sheet: the output begins with the sheet that answers, without the line `0` before it; on a refusal it is
// unchanged (SCOPE 5.31).
pub fn answer(bytes: &[u8], output: &mut [u8]) -> AnswerResult
    ensures { Answers.call_of result output.new ≡ Answers.answer_call bytes.now output.old }
{
    let mut rows = [0i64; ROWS];
    let mut relations = [0i64; RELATIONS];
    answers::answer_in(bytes, &mut rows, &mut relations, output)
}

// Before anything has come (SCOPE 5.33).
pub fn start() -> Stream
    ensures { result ≡ start_of }
{
    Stream {
        stage: Stage::Count,
        batch: frames::uncounted(0),
        held: 0,
    }
}

// The next piece of a batch: its answers are put at the front of the output, up to one that does not fit (SCOPE 5.34).
// Of the piece, `taken` bytes are done with; the others come again with the next piece. `held` is the store for bytes
// that begin a line or a sheet, of at least 32,792 (SCOPE 5.33).
pub fn piece(stream: Stream, held: &mut [u8], bytes: &[u8], output: &mut [u8]) -> PieceResult
    ensures { call_of result held.new output.new
        ≡ piece_call stream held.old bytes.now output.old }
{
    let refusal = pieces::check(stream, held);
    if refusal != 0 {
        return pieces::refused(refusal);
    }
    let mut rows = [0i64; ROWS];
    let mut relations = [0i64; RELATIONS];
    pieces::checked(stream, held, bytes, output, &mut rows, &mut relations)
}

// The end of the input: the last lines of the batch, one for each client, or `3` where it is not whole. An output too short is 1,
// and stays as it is (SCOPE 5.35).
pub fn finish(stream: Stream, output: &mut [u8]) -> OutputResult
    ensures { output_of result output.new ≡ end_call stream output.old }
{
    let stage = stream.stage;
    let batch = stream.batch;
    endings::ending(stage, batch, stream.held, output)
}

// A whole batch. A broken one is accepted, and its output ends in the line `3`. An output too short is 1, and then all
// of it is zero (SCOPE 5.32).
pub fn output(input: &[u8], output: &mut [u8]) -> OutputResult
    ensures { output_of result output.new ≡ output_call input.now output.old }
{
    let mut rows = [0i64; ROWS];
    let mut relations = [0i64; RELATIONS];
    endings::whole(input, output, &mut rows, &mut relations)
}
