// One piece of a batch that comes in pieces.
ghost use Rattle.std.specs.Prelude.{◌≡◌, min, ◌-◌, ◌≤◌, ◌<◌, length};
ghost use Rattle.rules.specs.Stores.{largest_rows, relation_need};
ghost use Rattle.rules.specs.Calls.{zeros};
ghost use Rattle.frames.specs.Pieces.{Counted};
ghost use Rattle.batches.specs.Feeds.{next_sheet};
ghost use Rattle.batches.specs.PieceCalls.{is_waiting, waits_with_of, stream_right_of, stream_check, call_of, piece_call, held_need};
ghost use Rattle.batches.specs.PieceSteps.{refused_of, unheld, untaken_of, rest_of};

use crate::{PieceResult, Stage, Stream};
use frames::SHEETS;

// The bytes that a line of at most 24 and a sheet of at most 32,768 can have (SCOPE 5.33).
pub const HELD: usize = 32792;

fn stream_right(s: Stream) -> bool
    ensures { result ≡ stream_right_of s }
{
    let batch = s.batch;
    let left = batch.left;
    if SHEETS < left {
        return false;
    }
    let accepted = batch.accepted;
    let refused = batch.refused;
    left + frames::in_all(accepted) + frames::in_all(refused) <= SHEETS && s.held < HELD
}

fn sheet_waits(left: usize, bytes: &[u8]) -> bool
    ensures { result ≡ is_waiting (next_sheet left bytes.now) }
{
    if left == 0 {
        return bytes.len() == 0;
    }
    let line = frames::line(bytes);
    if line.refusal == 4 {
        return true;
    }
    if line.refusal != 0 {
        return false;
    }
    bytes.len() - line.taken < line.bytes
}

// Do the held bytes begin a line or a sheet, and are they too few for it?
fn waits_with(stage: Stage, batch: frames::Batch, bytes: &[u8]) -> bool
    ensures { result ≡ waits_with_of stage batch bytes.now }
{
    match stage {
        Stage::Count => {
            let begun = frames::begin(bytes);
            begun.refusal == 4
        }
        Stage::Sheets => sheet_waits(batch.left, bytes),
        Stage::Over => bytes.len() == 0,
    }
}

// What is wrong with a stream that is handed in, or 0 (SCOPE 5.34).
pub(crate) fn check(s: Stream, held: &[u8]) -> u8
    ensures { result ≡ stream_check s held.now }
{
    if !stream_right(s) {
        return 2;
    }
    if held.len() < HELD {
        return 1;
    }
    let n = s.held;
    let stage = s.stage;
    let batch = s.batch;
    if waits_with(stage, batch, &held[..n]) {
        return 0;
    }
    5
}

pub(crate) fn refused(refusal: u8) -> PieceResult
    ensures { result ≡ refused_of refusal }
{
    PieceResult {
        refusal,
        stream: crate::start(),
        taken: 0,
        written: 0,
    }
}

// A piece of a batch of which no bytes are held. Where the answers fit, what is left of it is held.
fn unheld_piece(
    stage: Stage,
    batch: frames::Batch,
    held: &mut [u8],
    input: &[u8],
    output: &mut [u8],
    rows: &mut [i64],
    relations: &mut [i64],
) -> PieceResult
    requires { Counted batch × (held_need ≤ length held.old) × (rows.old ≡ zeros largest_rows) × (relations.old ≡ zeros relation_need) }
    ensures { call_of result held.new output.new
        ≡ unheld stage batch held.old input.now output.old }
{
    let fed = crate::feeding::feed(stage, batch, input, output, rows, relations);
    let next = fed.stage;
    let after = fed.batch;
    let from = fed.taken;
    if fed.full {
        return PieceResult {
            refusal: 0,
            stream: Stream {
                stage: next,
                batch: after,
                held: 0,
            },
            taken: from,
            written: fed.written,
        };
    }
    let left = placed_answers::copy(&input[from..], held);
    PieceResult {
        refusal: 0,
        stream: Stream {
            stage: next,
            batch: after,
            held: left,
        },
        taken: input.len(),
        written: fed.written,
    }
}

// How many bytes of the piece go behind those that are held: as many as a line and a sheet can have.
fn joining(held: usize, count: usize) -> usize
    requires { held < held_need }
    ensures { result ≡ min count (held_need - held) }
{
    let most = HELD - held;
    if count < most { count } else { most }
}

// Nothing was taken of the bytes held and those laid behind them: the next answer does not fit, or all of them are held.
fn untaken(fed: crate::feeding::Fed, held: usize, joined: usize, count: usize) -> PieceResult
    ensures { result ≡ untaken_of fed held joined count }
{
    let stage = fed.stage;
    let batch = fed.batch;
    if fed.full {
        return PieceResult {
            refusal: 0,
            stream: Stream { stage, batch, held },
            taken: 0,
            written: 0,
        };
    }
    PieceResult {
        refusal: 0,
        stream: Stream {
            stage,
            batch,
            held: joined,
        },
        taken: count,
        written: 0,
    }
}

// What follows the first answers of a piece, from a place of it on, worked from the piece itself.
fn rest_piece(
    fed: crate::feeding::Fed,
    from: usize,
    held: &mut [u8],
    input: &[u8],
    output: &mut [u8],
    rows: &mut [i64],
    relations: &mut [i64],
) -> PieceResult
    requires counted { Counted fed.batch × (held_need ≤ length held.old) × (rows.old ≡ zeros largest_rows)
        × (relations.old ≡ zeros relation_need) }
    requires from_in_bounds { (from ≤ length input.now) × (fed.written ≤ length output.old) }
    ensures { call_of result held.new output.new
        ≡ rest_of fed from held.old input.now output.old }
{
    let stage = fed.stage;
    let batch = fed.batch;
    let out = fed.written;
    if fed.full {
        return PieceResult {
            refusal: 0,
            stream: Stream {
                stage,
                batch,
                held: 0,
            },
            taken: from,
            written: out,
        };
    }
    let rest = unheld_piece(
        stage,
        batch,
        held,
        &input[from..],
        &mut output[out..],
        rows,
        relations,
    );
    let stream = rest.stream;
    PieceResult {
        refusal: 0,
        stream,
        taken: from + rest.taken,
        written: out + rest.written,
    }
}

// A piece of a batch of which some bytes are held: they and the bytes of the piece are laid end to end in the store, as far as a line and
// a sheet can go, and worked from there.
fn held_piece(
    s: Stream,
    held: &mut [u8],
    input: &[u8],
    output: &mut [u8],
    rows: &mut [i64],
    relations: &mut [i64],
) -> PieceResult
    requires { (stream_check s held.old ≡ 0) × (0 < s.held) × (rows.old ≡ zeros largest_rows) × (relations.old ≡ zeros relation_need) }
    ensures { call_of result held.new output.new
        ≡ piece_call s held.old input.now output.old }
{
    let stage = s.stage;
    let batch = s.batch;
    let before = s.held;
    let count = joining(before, input.len());
    let joined = before + count;
    placed_answers::copy(&input[..count], &mut held[before..]);
    let fed = crate::feeding::feed(stage, batch, &held[..joined], output, rows, relations);
    if fed.taken == 0 {
        return untaken(fed, before, joined, input.len());
    }
    rest_piece(
        fed,
        fed.taken - before,
        held,
        input,
        output,
        rows,
        relations,
    )
}

// A piece of a batch whose stream was checked.
pub(crate) fn checked(
    s: Stream,
    held: &mut [u8],
    input: &[u8],
    output: &mut [u8],
    rows: &mut [i64],
    relations: &mut [i64],
) -> PieceResult
    requires { (stream_check s held.old ≡ 0) × (rows.old ≡ zeros largest_rows) × (relations.old ≡ zeros relation_need) }
    ensures { call_of result held.new output.new
        ≡ piece_call s held.old input.now output.old }
{
    if s.held == 0 {
        let stage = s.stage;
        let batch = s.batch;
        unheld_piece(stage, batch, held, input, output, rows, relations)
    } else {
        held_piece(s, held, input, output, rows, relations)
    }
}
