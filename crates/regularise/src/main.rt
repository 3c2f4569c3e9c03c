// The batch program (SCOPE 5.41): each piece of standard input is handed to `batches::piece`, and what comes out is
// written before more is read. What is written for which input is proved of the calls of `batches`; that these loops
// hand over every byte that was read, in order, and write every byte that came out, is for the reader's eye. A read
// that fails is not the end of the input: nothing is written after it.
#![tactic(auto)]

ghost use Rattle.std.specs.Prelude.{◌≡◌, ◌*◌, ◌≤◌, IfSome, length};
ghost use Rattle.batches.specs.PieceCalls.{held_need, stream_check};
ghost use Rattle.batches.specs.Rooms.{answer_room};

use batches::{ANSWER, HELD};
use std::io::Read;

// The store for bytes that begin a line or a sheet (SCOPE 5.33).
fn store() -> [u8; HELD]
    ensures { held_need ≡ length result }
{
    [0; HELD]
}

// Room for at least two answers.
fn room() -> [u8; 2 * ANSWER]
    ensures { 2 * answer_room ≡ length result }
{
    [0; 2 * ANSWER]
}

// Input, read into the store: the number of bytes, 0 at the end of the input. Where that fails, there is no number, and
// standard error says so.
fn get(rt: &(impl Input + Eprint), input: &mut [u8]) -> Option<usize>
    ensures { IfSome result (λ count. count ≤ length input.new) }
{
    match rt.reader().read(input) {
        Ok(count) => Some(count),
        Err(_) => {
            let _ = rt.eprintln("regularise: standard input cannot be read");
            None
        }
    }
}

// Output, written at once. Where that fails, standard error says so.
fn put(rt: &(impl Print + Eprint), text: &[u8]) -> bool {
    match rt.write_all(text) {
        Ok(()) => true,
        Err(_) => {
            let _ = rt.eprintln("regularise: standard output cannot be written");
            false
        }
    }
}

// A piece of the input, handed over in as many calls as its answers need: how the batch stands then, or none where a write fails.
fn pass(
    rt: &(impl Print + Eprint),
    start: batches::Stream,
    held: &mut [u8],
    input: &[u8],
    output: &mut [u8],
) -> Option<batches::Stream>
    requires { (stream_check start held.old ≡ 0) × (answer_room ≤ length output.old) }
    ensures { IfSome result (λ stream. stream_check stream held.new ≡ 0) }
{
    let mut stream = start;
    let mut at = 0;
    // No count: a call takes as many bytes as its answers have room for.
    while at < input.len() {
        let passed = batches::piece(stream, held, &input[at..], output);
        stream = passed.stream;
        at += passed.taken;
        let length = passed.written;
        if !put(rt, &output[..length]) {
            return None;
        }
    }
    Some(stream)
}

// Nothing more is answered after a broken batch (SCOPE 5.21).
fn over(stage: batches::Stage) -> bool {
    match stage {
        batches::Stage::Over => true,
        batches::Stage::Count | batches::Stage::Sheets => false,
    }
}

// All of the input: how the batch stands at its end, or none where a read or a write fails. A proved loop has to end, and nothing
// says that the input does: its turns are more than any run uses up.
fn pass_all(
    rt: &(impl Input + Print + Eprint),
    held: &mut [u8],
    input: &mut [u8],
    output: &mut [u8],
) -> Option<batches::Stream>
    requires { (held_need ≤ length held.old) × (answer_room ≤ length output.old) }
{
    let mut stream = batches::start();
    for _ in 0..u64::MAX {
        let count = get(rt, input)?;
        if count == 0 {
            break;
        }
        stream = pass(rt, stream, held, &input[..count], output)?;
        if over(stream.stage) {
            break;
        }
    }
    Some(stream)
}

fn main(rt: HostRuntime) {
    let mut held = store();
    let mut input = inputs::large_buffer();
    let mut output = room();
    if let Some(stream) = pass_all(&rt, &mut held, &mut input, &mut output) {
        let last = batches::finish(stream, &mut output);
        put(&rt, &output[..last.length]);
    }
}
