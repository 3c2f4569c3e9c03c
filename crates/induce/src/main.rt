// The program for one differential sheet (SCOPE 10.51): it writes `0` and the sheet of the recurrence, or the number of
// the refusal alone on a line. What is written for which sheet is proved of `differential::write_recurrence` and
// `frames::refusal_line`; that the bytes come from standard input and go to standard output is for the reader's eye. A
// read that fails is not the end of the sheet: nothing is written then.
#![tactic(auto)]

ghost use Rattle.std.specs.Prelude.{◌≡◌, ◌≤◌, IfSome, length, take};
ghost use Rattle.differential.specs.Longer.{most_sheet_bytes};
ghost use Rattle.differential.specs.WrittenLength.{most_recurrence_bytes};

use std::io::Read;

// As many bytes as any fault needs: more input is read as these first bytes are (`write-window` of `differential`).
fn input() -> [u8; 10501]
    ensures { most_sheet_bytes ≡ length result }
{
    [0; 10501]
}

// Room for the recurrence of any sheet (`write-fits` of `differential`), so that no sheet is refused with 1.
fn room() -> [u8; 25223]
    ensures { most_recurrence_bytes ≡ length result }
{
    [0; 25223]
}

// Input, read into the store: the number of bytes, 0 at the end of the input. Where that fails, there is no number, and
// standard error says so.
fn get(rt: &(impl Input + Eprint), input: &mut [u8]) -> Option<usize>
    ensures { IfSome result (λ count. count ≤ length input.new) }
{
    match rt.reader().read(input) {
        Ok(count) => Some(count),
        Err(_) => {
            let _ = rt.eprintln("induce: standard input cannot be read");
            None
        }
    }
}

// Input up to its end, or as much as the store holds: the number of bytes, or none where a read fails.
fn fill(rt: &(impl Input + Eprint), sheet: &mut [u8]) -> Option<usize>
    ensures in_bounds { IfSome result (λ count. count ≤ length sheet.new) }
    ensures counted { IfSome result (λ count. count ≡ length (take count sheet.new)) }
{
    let mut count = 0;
    // No count: a read takes as many bytes as there are.
    while count < sheet.len() {
        let taken = get(rt, &mut sheet[count..])?;
        if taken == 0 {
            break;
        }
        count += taken;
    }
    Some(count)
}

// Output, written at once. Where that fails, standard error says so.
fn put(rt: &(impl Print + Eprint), text: &[u8]) -> bool {
    match rt.write_all(text) {
        Ok(()) => true,
        Err(_) => {
            let _ = rt.eprintln("induce: standard output cannot be written");
            false
        }
    }
}

// The line of a refusal's number, or of 0.
fn put_line(rt: &(impl Print + Eprint), refusal: u8) -> bool {
    let line = frames::refusal_line(refusal);
    let text = line.bytes;
    let end = line.length;
    put(rt, &text[..end])
}

// The line `0` and the sheet of the recurrence, or the line of the refusal alone.
fn answer(rt: &(impl Print + Eprint), sheet: &[u8]) {
    let mut output = room();
    match differential::write_recurrence(sheet, &mut output) {
        Ok(length) => {
            if put_line(rt, 0) {
                put(rt, &output[..length]);
            }
        }
        Err(refusal) => {
            put_line(rt, refusal.number());
        }
    }
}

fn main(rt: HostRuntime) {
    let mut sheet = input();
    if let Some(count) = fill(&rt, &mut sheet) {
        answer(&rt, &sheet[..count]);
    }
}
