// The frame of a batch: the line with the sheet count, the line of each sheet, the count of the answers by client, and the last lines.
// `batches` has the public entry points; no `pub fn` here has a `requires`, and the contracts give the result by equations.
#![tactic(auto)]

ghost use Rattle.std.specs.Prelude.{◌≡◌, [], ◌∷◌, min, ◌+◌, ◌^◌, ◌≤◌, ◌<◌, pos, length, take};
ghost use Rattle.lists.specs.Totals.{total};
ghost use Rattle.rules.specs.Numbers.{line, lines};
ghost use Rattle.rules.specs.Batch.{no_tally, tally_lines};
ghost use Rattle.number_texts.specs.Runs.{Put};
ghost use Rattle.frames.specs.Pieces.{batch_with, begun_of, begun_in, line_of, line_in, raised_of, counted_of, text_of, refusal_line_of, close_text};
ghost use Rattle.frames.specs.Lines.{pair_bytes, tally_bytes};

use refusals::Refusal;

// Clients have the numbers 1 to 8 (SCOPE 5.2).
pub const CLIENTS: usize = 8;

// The sheets that a batch may have (SCOPE 5.1).
pub const SHEETS: usize = 1000;

// The longest text: a line of at most 24 bytes for each client.
pub const TEXT: usize = 24 * CLIENTS;

// The sheets still to come, and the answers so far, client 1 first.
#[derive(Drop)]
#[derive(Clone, Copy)]
pub struct Batch {
    pub left: usize,
    pub accepted: [usize; CLIENTS],
    pub refused: [usize; CLIENTS],
}

// What a batch begins with, or the fault of its first line: 4 where it ends early. The line is `taken` bytes long.
#[derive(Drop)]
pub struct Begun {
    pub refusal: u8,
    pub taken: usize,
    pub batch: Batch,
}

// The client and the byte count of a sheet, or the fault of its line: 4 where it ends early. The line is `taken` bytes long.
#[derive(Drop)]
pub struct SheetLine {
    pub refusal: u8,
    pub taken: usize,
    pub client: usize,
    pub bytes: usize,
}

// Lines of text, with zeros past their end.
#[derive(Drop)]
pub struct Text {
    pub bytes: [u8; TEXT],
    pub length: usize,
}

// A batch of so many sheets, of which none is counted.
pub fn uncounted(left: usize) -> Batch
    ensures { result ≡ batch_with left no_tally }
{
    Batch {
        left,
        accepted: [0; CLIENTS],
        refused: [0; CLIENTS],
    }
}

// ---- lines that are read

// A line is decided by its first 24 bytes (SCOPE 5.23): two numbers of at most ten digits and a minus, with their
// separators.
fn window(bytes: &[u8]) -> &[u8]
    ensures { result.now ≡ take 24 bytes.now }
{
    if bytes.len() <= 24 {
        bytes
    } else {
        &bytes[..24]
    }
}

// The line with the number of sheets, 0 to 1,000 (SCOPE 5.1).
fn first_line(bytes: &[u8]) -> Result<Begun, Refusal>
    ensures { begun_in result ≡ begun_of bytes.now }
{
    let n = tokens::number_between(window(bytes), 0, 0, 1000, 10)?;
    let sheets = n.value as usize;
    Ok(Begun {
        refusal: 0,
        taken: n.at,
        batch: uncounted(sheets),
    })
}

// The same, with the refusal by its number. The bytes are the rest of the input, or a part from its start of at least 24.
pub fn begin(bytes: &[u8]) -> Begun
    ensures { result ≡ begun_of bytes.now }
{
    match first_line(bytes) {
        Ok(begun) => begun,
        Err(refusal) => Begun {
            refusal: refusal.number(),
            taken: 0,
            batch: uncounted(0),
        },
    }
}

fn no_line(refusal: u8) -> SheetLine
    ensures { result ≡ record { refusal = refusal; taken = 0; client = 0; bytes = 0 } }
{
    SheetLine {
        refusal,
        taken: 0,
        client: 0,
        bytes: 0,
    }
}

// The line of a sheet: its client, 1 to 8, and its bytes, 0 to 32,768 (SCOPE 5.2).
fn sheet_line(bytes: &[u8]) -> Result<SheetLine, Refusal>
    ensures { line_in result ≡ line_of bytes.now }
{
    let w = window(bytes);
    let client = tokens::number_between(w, 0, 1, 8, 32)?;
    let size = tokens::number_between(w, client.at, 0, 32768, 10)?;
    Ok(SheetLine {
        refusal: 0,
        taken: size.at,
        client: client.value as usize,
        bytes: size.value as usize,
    })
}

// The same, with the refusal by its number. The bytes given are as for `begin`.
pub fn line(bytes: &[u8]) -> SheetLine
    ensures { result ≡ line_of bytes.now }
{
    match sheet_line(bytes) {
        Ok(line) => line,
        Err(refusal) => no_line(refusal.number()),
    }
}

// ---- counting

// One more for a client. A number that is no client's, and a client of whom 1,000 sheets are counted, count nothing.
fn raised(counts: [usize; CLIENTS], client: usize) -> [usize; CLIENTS]
    ensures { result ≡ raised_of client counts }
{
    if client < 1 {
        return counts;
    }
    if CLIENTS < client {
        return counts;
    }
    let place = client - 1;
    let count = counts[place];
    if SHEETS <= count {
        return counts;
    }
    let mut more = counts;
    more[place] = count + 1;
    more
}

// One sheet fewer to come, and one more of its client accepted (0) or refused (SCOPE 5.12). Where none is to come, the batch stays.
pub fn counted(batch: Batch, client: usize, refusal: u8) -> Batch
    ensures { result ≡ counted_of batch client refusal }
{
    if batch.left == 0 {
        return batch;
    }
    let accepted = batch.accepted;
    let refused = batch.refused;
    if refusal == 0 {
        return Batch {
            left: batch.left - 1,
            accepted: raised(accepted, client),
            refused,
        };
    }
    Batch {
        left: batch.left - 1,
        accepted,
        refused: raised(refused, client),
    }
}

// The sheets of all clients together, or one more than 1,000 where they are more.
pub fn in_all(counts: [usize; CLIENTS]) -> usize
    ensures { result ≡ min (total counts) 1001 }
{
    let mut sum = 0;
    for count in counts {
        if SHEETS - sum < count {
            return SHEETS + 1;
        }
        sum += count;
    }
    sum
}

// ---- lines that are written

// A refusal alone on its line; `0` before the sheet that answers (SCOPE 5.11).
pub fn refusal_line(refusal: u8) -> Text
    ensures { result ≡ text_of (refusal_line_of refusal) }
{
    let mut bytes = [0u8; TEXT];
    let length = number_texts::put_count(&mut bytes, 0, refusal as usize);
    Text { bytes, length }
}

// The line of a client.
fn put_pair(bytes: &mut [u8], at: usize, accepted: usize, refused: usize) -> usize
    requires { at + pair_bytes < 2 ^ 64 }
    ensures { Put bytes.old at (line (pos accepted ∷ pos refused ∷ [])) pair_bytes bytes.new result }
{
    let after = number_texts::put_digits(bytes, at, accepted as u64);
    let next = number_texts::put_byte(bytes, after, 32);
    number_texts::put_count(bytes, next, refused)
}

// The lines of all clients, client 1 first.
fn put_tally(bytes: &mut [u8], accepted: [usize; CLIENTS], refused: [usize; CLIENTS]) -> usize
    ensures { Put bytes.old 0 (lines (tally_lines (record { accepted = accepted; refused = refused }))) tally_bytes
        bytes.new result }
{
    let mut at = 0;
    for i in 0..CLIENTS {
        at = put_pair(bytes, at, accepted[i], refused[i]);
    }
    at
}

fn tally_text(accepted: [usize; CLIENTS], refused: [usize; CLIENTS]) -> Text
    requires { (total accepted ≤ 1000) × (total refused ≤ 1000) }
    ensures { result ≡ text_of (lines (tally_lines (record { accepted = accepted; refused = refused }))) }
{
    let mut bytes = [0u8; TEXT];
    let length = put_tally(&mut bytes, accepted, refused);
    Text { bytes, length }
}

// The last lines: how many sheets of each client are accepted and how many refused (SCOPE 5.12); 3 where sheets are still to come,
// `over` bytes are left over (SCOPE 5.21), or more than 1,000 are counted.
pub fn close(batch: Batch, over: usize) -> Text
    ensures { result ≡ text_of (close_text batch over) }
{
    if batch.left != 0 {
        return refusal_line(3);
    }
    if over != 0 {
        return refusal_line(3);
    }
    let accepted = batch.accepted;
    if SHEETS < in_all(accepted) {
        return refusal_line(3);
    }
    let refused = batch.refused;
    if SHEETS < in_all(refused) {
        return refusal_line(3);
    }
    tally_text(accepted, refused)
}
