// Prints what the library gives on systems of known result (SCOPE 7). Standard input has the cases: for each a line
// `leading BYTES` or `trailing BYTES` and a sheet of that many bytes. Each is read, run on that side, and answered by a
// line `leading REFUSAL relations R shifts S root N rank W mult M` or `trailing REFUSAL shifts S root N rank W mult M`,
// N a number or `none` and M how often it occurs. Where the refusal is 0, more lines follow: `diagonal J: COEFFICIENTS`
// for each of the W equations, then `right J: COEFFICIENTS` for each, its diagonal polynomial and its right side from
// power 0 up, as the access to the row store gives them (SCOPE 3.41, 3.45); then the sheet that the run leaves: W
// equations, and their column order.
#![tactic(auto)]

ghost use Rattle.std.specs.Prelude.{◌≡◌, true, false, ◌+◌, ◌≤◌, IfSome, length};

use elimination::RunReport;
use printing::{print, print_signed, print_size};
use refusals::Refusal;
use sides::Side;
use stores::lengths::{RELATIONS, ROWS};
use stores::validity::Sizes;

// A case: its side, and where its sheet begins and ends.
#[derive(Drop)]
#[derive(Clone, Copy)]
struct Case {
    side: Side,
    from: usize,
    to: usize,
}

// Does the word stand in the input from a place on?
fn stands(input: &[u8], at: usize, word: &[u8]) -> bool
    requires { at ≤ length input.now }
    ensures { result ≡ true → at + length word.now ≤ length input.now }
{
    input[at..].starts_with(word)
}

// The sheet whose byte count stands from a place on, or none where it is broken.
fn sheet_after(input: &[u8], at: usize, side: Side) -> Option<Case>
    requires { at ≤ length input.now }
    ensures { IfSome result (λ case. (case.from ≤ case.to) × (case.to ≤ length input.now)) }
{
    let Ok(count) = tokens::number_between(input, at, 0, 32768, 10) else {
        return None;
    };
    let from = count.at;
    let size = integers::magnitude(count.value) as usize;
    if input.len() - from < size {
        return None;
    }
    Some(Case {
        side,
        from,
        to: from + size,
    })
}

fn case_at(input: &[u8], at: usize) -> Option<Case>
    requires { at ≤ length input.now }
    ensures { IfSome result (λ case. (case.from ≤ case.to) × (case.to ≤ length input.now)) }
{
    if stands(input, at, b"leading ") {
        return sheet_after(input, at + 8, Side::Leading);
    }
    if stands(input, at, b"trailing ") {
        return sheet_after(input, at + 9, Side::Trailing);
    }
    None
}

// A refused run, or a sheet that is not read: no relation, no shift, no row and no root.
fn nothing() -> RunReport {
    RunReport {
        relations: 0,
        shifts: 0,
        order: [0; 4],
        root: None,
        rank: 0,
    }
}

fn print_report(rt: &impl Print, refusal: u8, report: RunReport, side: Side) {
    match side {
        Side::Trailing => {
            print(rt, b"trailing");
            print_size(rt, refusal as u64);
        }
        Side::Leading => {
            print(rt, b"leading");
            print_size(rt, refusal as u64);
            print(rt, b" relations");
            print_size(rt, report.relations as u64);
        }
    }
    print(rt, b" shifts");
    print_size(rt, report.shifts as u64);
    print(rt, b" root");
    let mut times = 0;
    match report.root {
        Some(root) => {
            print_signed(rt, root.value);
            times = root.times;
        }
        None => print(rt, b" none"),
    }
    print(rt, b" rank");
    print_size(rt, report.rank as u64);
    print(rt, b" mult");
    print_size(rt, times as u64);
    print(rt, b"\n");
}

fn print_result(rt: &impl Print, run: Result<RunReport, Refusal>, side: Side) {
    match run {
        Ok(report) => print_report(rt, 0, report, side),
        Err(refusal) => print_report(rt, refusal.number(), nothing(), side),
    }
}

// The coefficients from power 0 up to the highest that is not 0; that of power 0 in any case.
fn print_polynomial(rt: &impl Print, p: &[i64]) {
    let degree = polynomials::content::degree(p);
    for (power, coefficient) in p.iter().enumerate() {
        if degree < power {
            break;
        }
        print_signed(rt, *coefficient);
    }
    print(rt, b"\n");
}

// The word and number that a line begins with.
fn print_label(rt: &impl Print, word: &[u8], row: usize) {
    print(rt, word);
    print_size(rt, row as u64);
    print(rt, b":");
}

// The polynomial of each row in the block and in the row's own column (SCOPE 2.72, 2.93).
fn print_diagonal(rt: &impl Print, rows: &[i64], sizes: Sizes, block: i64, order: [usize; 4]) {
    for row in 0..sizes.equations.min(4) {
        print_label(rt, b"diagonal", row + 1);
        print_polynomial(
            rt,
            elimination::polynomial(rows, sizes, row + 1, block, order[row]),
        );
    }
}

fn print_right_sides(rt: &impl Print, rows: &[i64], sizes: Sizes) {
    for row in 1..=sizes.equations {
        print_label(rt, b"right", row);
        print_polynomial(rt, elimination::right_side(rows, sizes, row));
    }
}

fn print_sheet(
    rt: &impl Print,
    rows: &[i64],
    relations: &[i64],
    sizes: Sizes,
    count: usize,
    order: [usize; 4],
) {
    let mut bytes = inputs::large_buffer();
    if let Ok(length) = sheets::write_sheet(rows, relations, sizes, count, order, &mut bytes) {
        print(rt, &bytes[..length]);
    }
}

// What an accepted run leaves: on the leading side the diagonal stands in block l, on the trailing side in block t.
fn print_accepted(
    rt: &impl Print,
    rows: &[i64],
    relations: &[i64],
    sizes: Sizes,
    report: RunReport,
    side: Side,
) {
    let order = report.order;
    let block = match side {
        Side::Leading => sizes.l,
        Side::Trailing => sizes.t,
    };
    print_diagonal(rt, rows, sizes, block, order);
    print_right_sides(rt, rows, sizes);
    print_sheet(rt, rows, relations, sizes, report.relations, order);
}

fn run_side(
    rows: &mut [i64],
    relations: &mut [i64],
    sizes: Sizes,
    count: usize,
    side: Side,
) -> Result<RunReport, Refusal> {
    match side {
        Side::Leading => elimination::run_leading(rows, relations, sizes, count),
        Side::Trailing => elimination::run_trailing(rows, relations, sizes, count),
    }
}

fn run_sheet(rt: &impl Print, sheet: &[u8], side: Side) {
    let mut rows = [0i64; ROWS];
    let mut relations = [0i64; RELATIONS];
    let read = match sheets::read_sheet(sheet, &mut rows, &mut relations) {
        Ok(read) => read,
        Err(refusal) => {
            print_result(rt, Err(refusal), side);
            return;
        }
    };
    let sizes = read.sizes;
    let run = run_side(&mut rows, &mut relations, sizes, read.relations, side);
    print_result(rt, run, side);
    if let Ok(report) = run {
        let kept = Sizes {
            m: sizes.m,
            equations: report.rank,
            l: sizes.l,
            t: sizes.t,
        };
        print_accepted(rt, &rows, &relations, kept, report, side);
    }
}

// Every case, up to one that is broken.
fn run_cases(rt: &impl Print, input: &[u8]) {
    let mut at = 0;
    // No count: a case is as long as it is.
    while at < input.len() {
        match case_at(input, at) {
            Some(Case { side, from, to }) if at < to => {
                run_sheet(rt, &input[from..to], side);
                at = to;
            }
            _ => {
                print(rt, b"broken\n");
                return;
            }
        }
    }
}

fn main(rt: HostRuntime) {
    let mut store = inputs::large_buffer();
    let count = inputs::read_full(&rt, &mut store);
    run_cases(&rt, &store[..count]);
}
