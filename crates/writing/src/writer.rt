// Writing a sheet. Each writing function stores its bytes from a place on, as far as the store goes, counts them all and gives
// the next place, as those of `number_texts`: called on an empty part of the store it only counts, so that nothing is written before it is
// known to fit.
use number_texts::{COUNT_BYTES, NUMBER_BYTES};
use polynomials::lengths::COEFFICIENTS;
use refusals::Refusal;
use shape::Shape;
use stores::lengths::{BLOCK, COLUMNS, ENTRIES, POLYNOMIALS, RELATION, ROW};

pub mod checks;
mod shape;

ghost use Rattle.std.specs.Prelude.{◌≡◌, [], ◌∷◌, map, ◌+◌, ◌*◌, ◌-◌, ◌%◌, ◌^◌, ◌≤◌, ◌<◌, min, ℤ, pos, nat_abs, T, length, take, drop};
ghost use Rattle.rules.specs.Numbers.{line, lines};
ghost use Rattle.rules.specs.Limits.{column_count, row_length, relation_length, most_relations, small, coefficient_count, most_equations, polynomial_count, most_span, block_length, block_bound};
ghost use Rattle.lists.specs.Tests.{every};
ghost use Rattle.algebra.specs.Polynomials.{is_zero_of};
ghost use Rattle.rules.specs.Sheets.{trim, block_terms_of, terms_from, relation_line, order_line};
ghost use Rattle.rules.specs.Sheets.{side_line, side_lines, write_sheet_of};
ghost use Rattle.rules.specs.Stores.{row_of, relations_of, equations};
ghost use Rattle.number_texts.specs.Runs.{Put};
ghost use Rattle.number_texts.specs.Texts.{spaced};
ghost use Rattle.number_texts.specs.TextBytes.{count_bytes};
ghost use Rattle.writing.specs.SheetBytes.{term_bytes, block_bytes, terms_bytes, relation_bytes};
ghost use Rattle.writing.specs.SheetBytes.{sizes_bytes, order_bytes, sheet_bytes, term_room, block_room, terms_room};
ghost use Rattle.writing.specs.SheetBytes.{relation_room, sizes_room, side_bytes, sides_bytes, side_room};
ghost use Rattle.writing.specs.Records.{start_bytes, start_room, record_start, record_line, record_lines};
ghost use Rattle.writing.specs.Writer.{SmallParts, Lengths, term_at_of, numbers_of, nonzero_count};
ghost use Rattle.writing.specs.Writer.{Unused, UnusedParts, NoTerms, sheet_given, sides_in, sides_given};
ghost use Rattle.writing.specs.LineLengths.{most_in_term_of, most_in_terms_of, most_in_records_of, lines_length};
ghost use Rattle.writing.specs.WriterChecks.{Checked, call_of};
ghost use Rattle.rules.specs.SheetCalls.{check_write_of, write_call};
ghost use Rattle.rules.specs.Layout.{block_of, coefficients_at_of, polynomials_in};
ghost use Rattle.stores.specs.Validity.{the_sizes_of};

// The bytes of the longest line of a right side, and of the lines of a sheet but those of right sides, equations and relations together, as
// in `specs/SheetBytes.antt`: the sizes, three counts and the order.
const SIDE_BYTES: usize = COUNT_BYTES + COEFFICIENTS * NUMBER_BYTES;

const LINES_BYTES: usize = 2
    + COUNT_BYTES
    + 2 * NUMBER_BYTES
    + 3 * COUNT_BYTES
    + (1 + COLUMNS) * COUNT_BYTES;

// Most polynomials have no more coefficients.
const FEW: usize = 4;

// The numbers of a term with so few coefficients, of the longest term, and of all terms of the longest line.
const SHORT_TERM: usize = 3 + FEW;

const LONG_TERM: usize = 3 + COEFFICIENTS;

const LONG_TERMS: usize = POLYNOMIALS * LONG_TERM;

// The number of numbers up to the last nonzero one. All of them are looked at: a way out of the loop would cost more than it spares.
fn trimmed_of(numbers: &[i64]) -> usize
    ensures { result ≡ length (trim numbers.now) }
{
    let mut n = 0;
    for (i, a) in numbers.iter().enumerate() {
        if *a != 0 {
            n = i + 1;
        }
    }
    n
}

// The number of coefficients up to the last nonzero one (SCOPE 4.24). Most polynomials have few.
fn trimmed(p: &[i64]) -> usize
    requires { length p.now ≡ coefficient_count }
    ensures { result ≡ length (trim p.now) }
{
    if polynomials::content::all_zero(&p[FEW..]) {
        return trimmed_of(&p[..FEW]);
    }
    trimmed_of(&p[..COEFFICIENTS])
}

// One term; nothing for a zero polynomial (SCOPE 4.22, 4.52).
fn put_term(bytes: &mut [u8], at: usize, p: &[i64], n: usize, block: i64, column: usize) -> usize
    requires { (length p.now ≡ coefficient_count) × (n ≡ length (trim p.now)) × (at + term_room < 2 ^ 64) × T (every small p.now)
        × (nat_abs block ≤ block_bound + most_span) }
    ensures { Put bytes.old at (spaced (term_at_of block column p.now)) term_bytes bytes.new result }
{
    if n == 0 {
        return at;
    }
    let after_block = number_texts::put_next_short(bytes, at, block);
    let after_column = number_texts::put_next_count(bytes, after_block, column);
    let after_count = number_texts::put_next_count(bytes, after_column, n);
    number_texts::put_numbers(bytes, after_count, &p[..n])
}

// The terms of one block, by rising column (SCOPE 4.23).
fn put_block(bytes: &mut [u8], at: usize, numbers: &[i64], lengths: &[usize], block: i64) -> usize
    requires { (length numbers.now ≡ block_length) × (length lengths.now ≡ column_count) × Lengths column_count numbers.now lengths.now
        × (at + block_room < 2 ^ 64) × T (every small numbers.now)
        × (nat_abs block ≤ block_bound + most_span) }
    ensures { Put bytes.old at (spaced (numbers_of (block_terms_of block 1 (block_of numbers.now)))) block_bytes
        bytes.new result }
{
    let mut next = at;
    for c in 0..COLUMNS {
        let from = c * COEFFICIENTS;
        let to = from + COEFFICIENTS;
        next = put_term(bytes, next, &numbers[from..to], lengths[c], block, c + 1);
    }
    next
}

// The terms of a row, from block l downward, in each block by rising column (SCOPE 4.23). Past the blocks in use there are none.
fn put_terms(bytes: &mut [u8], at: usize, row: &[i64], lengths: &[usize], shape: Shape) -> usize
    requires { (length row.now ≡ row_length) × (length lengths.now ≡ polynomial_count)
        × Lengths (shape.blocks * column_count) row.now lengths.now × (at + terms_room < 2 ^ 64)
        × T (every small row.now) × NoTerms shape.blocks row.now }
    ensures { Put bytes.old at (spaced (numbers_of (terms_from shape.l (row_of row.now).blocks))) terms_bytes
        bytes.new result }
{
    let mut next = at;
    for b in 0..shape.blocks {
        let from = b * BLOCK;
        let to = from + BLOCK;
        let first = b * COLUMNS;
        let last = first + COLUMNS;
        next = put_block(
            bytes,
            next,
            &row[from..to],
            &lengths[first..last],
            shape.l - b as i64,
        );
    }
    next
}

// The number of coefficients of polynomial i of a row: none past column m, where it is not looked at.
fn term_length(row: &[i64], i: usize, m: usize) -> usize
    requires { (length row.now ≡ row_length) × (i < polynomial_count)
        × (m ≤ i % column_count → T (is_zero_of (coefficients_at_of row.now i))) }
    ensures { result ≡ length (trim (coefficients_at_of row.now i)) }
{
    if m <= i % COLUMNS {
        return 0;
    }
    let from = i * COEFFICIENTS;
    let to = from + COEFFICIENTS;
    trimmed(&row[from..to])
}

// The number of terms of a row, of its polynomials that are not zero (SCOPE 4.52), and the number of coefficients of
// each. Those past the blocks in use are zero (SCOPE 3.34), and not looked at.
fn term_lengths(lengths: &mut [usize], row: &[i64], shape: Shape) -> usize
    requires { (length lengths.old ≡ polynomial_count) × (length row.now ≡ row_length) × Unused shape.m shape.blocks row.now }
    ensures { (result ≡ nonzero_count (polynomials_in row.now))
        × Lengths (shape.blocks * column_count) row.now lengths.new }
{
    let used = shape.blocks * COLUMNS;
    let mut terms = 0;
    for i in 0..used {
        let n = term_length(row, i, shape.m);
        lengths[i] = n;
        if n != 0 {
            terms += 1;
        }
    }
    terms
}

// How the line of a record begins: with the number of its row's terms, behind n0 where the record has it before its row (SCOPE 4.14).
fn put_start(bytes: &mut [u8], at: usize, part: &[i64], skip: usize, terms: usize) -> usize
    requires { (skip ≤ length part.now) × T (every small part.now) × (at + start_room < 2 ^ 64) }
    ensures { Put bytes.old at (record_start skip part.now terms) start_bytes bytes.new result }
{
    if skip == 0 {
        return number_texts::put_digits(bytes, at, terms as u64);
    }
    let indexed = number_texts::put_number(bytes, at, part[0]);
    number_texts::put_next_count(bytes, indexed, terms)
}

// The line of a record, whose row stands behind its first `skip` numbers: none of an equation, n0 of a relation.
fn put_record(bytes: &mut [u8], at: usize, part: &[i64], skip: usize, shape: Shape) -> usize
    requires { (skip ≤ 1) × (length part.now ≡ skip + row_length) × (at + relation_room < 2 ^ 64)
        × T (every small part.now) × Unused shape.m shape.blocks (drop skip part.now) }
    ensures { Put bytes.old at (line (record_line shape.l skip part.now)) relation_bytes bytes.new result }
{
    let row = &part[skip..];
    let mut lengths = [0usize; POLYNOMIALS];
    let terms = term_lengths(&mut lengths, row, shape);
    let started = put_start(bytes, at, part, skip, terms);
    let written = put_terms(bytes, started, row, &lengths, shape);
    number_texts::put_byte(bytes, written, 10)
}

// The lines of the first records of a store.
fn put_records(
    bytes: &mut [u8],
    at: usize,
    store: &[i64],
    skip: usize,
    records: usize,
    shape: Shape,
) -> usize
    requires { (skip ≤ 1) × (records ≤ most_relations) × (records * (skip + row_length) ≤ length store.now)
        × (at + most_relations * relation_room < 2 ^ 64) × SmallParts (skip + row_length) records store.now
        × UnusedParts shape.m shape.blocks skip (skip + row_length) records store.now }
    ensures { Put bytes.old at (record_lines shape.l skip records store.now) (records * relation_bytes) bytes.new result }
{
    let width = skip + ROW;
    let mut next = at;
    for i in 0..records {
        let from = i * width;
        let to = from + width;
        next = put_record(bytes, next, &store[from..to], skip, shape);
    }
    next
}

// Bytes that are there already.
fn put_text(bytes: &mut [u8], at: usize, text: &[u8]) -> usize
    requires { at + length text.now < 2 ^ 64 }
    ensures { Put bytes.old at text.now (length text.now) bytes.new result }
{
    let next = at + text.len();
    let end = next.min(bytes.len());
    if at < end {
        bytes[at..end].copy_from_slice(&text[..end - at]);
    }
    next
}

// The lines of all relations: a text that has those of the first ones, and the others written. A relation has one line alone, so a caller
// that has read it may hand in the bytes that it read.
fn put_given(
    bytes: &mut [u8],
    at: usize,
    relations: &[i64],
    count: usize,
    shape: Shape,
    given: &[u8],
    first: usize,
) -> usize
    requires count_le_most_relations { (count ≤ most_relations) × (count * relation_length ≤ length relations.now)
        × (at + (length given.now + most_relations * relation_room) < 2 ^ 64) × SmallParts relation_length count relations.now
        × UnusedParts shape.m shape.blocks 1 relation_length count relations.now }
    requires first_le_count { (first ≤ count) × (given.now ≡ lines (map (relation_line shape.l) (relations_of first relations.now))) }
    ensures { Put bytes.old at (lines (map (relation_line shape.l) (relations_of count relations.now)))
        (length given.now + (count - first) * relation_bytes) bytes.new result }
{
    let start = first * RELATION;
    let after_given = put_text(bytes, at, given);
    put_records(
        bytes,
        after_given,
        &relations[start..],
        1,
        count - first,
        shape,
    )
}

fn put_order(bytes: &mut [u8], at: usize, order: &[usize]) -> usize
    requires { (length order.now ≤ column_count) × (at + order_bytes < 2 ^ 64) }
    ensures { Put bytes.old at (line (order_line order.now)) order_bytes bytes.new result }
{
    let counted = number_texts::put_digits(bytes, at, order.len() as u64);
    let written = number_texts::put_columns(bytes, counted, order);
    number_texts::put_byte(bytes, written, 10)
}

fn put_sizes(bytes: &mut [u8], at: usize, m: usize, l: i64, t: i64) -> usize
    requires { (at + sizes_room < 2 ^ 64) × (nat_abs l ≤ block_bound) × (nat_abs t ≤ block_bound) }
    ensures { Put bytes.old at (line (pos 3 ∷ pos m ∷ l ∷ t ∷ [])) sizes_bytes bytes.new result }
{
    let after_form = number_texts::put_byte(bytes, at, 51);
    let after_m = number_texts::put_next_count(bytes, after_form, m);
    let after_l = number_texts::put_next_short(bytes, after_m, l);
    let after_t = number_texts::put_next_short(bytes, after_l, t);
    number_texts::put_byte(bytes, after_t, 10)
}

// The number of coefficients of a right side, and these (SCOPE 4.25).
fn put_side(bytes: &mut [u8], at: usize, p: &[i64]) -> usize
    requires { (length p.now ≡ coefficient_count) × (at + side_room < 2 ^ 64) × T (every small p.now) }
    ensures { Put bytes.old at (line (side_line p.now)) side_bytes bytes.new result }
{
    let n = trimmed(p);
    let counted = number_texts::put_digits(bytes, at, n as u64);
    let written = number_texts::put_numbers(bytes, counted, &p[..n]);
    number_texts::put_byte(bytes, written, 10)
}

// Are the right sides of the first records of a store zero, each behind so many numbers of its record?
fn sides_zero(store: &[i64], skip: usize, records: usize) -> bool
    requires { (skip ≤ row_length) × (records ≤ most_relations) × (records * (skip + coefficient_count) ≤ length store.now) }
    ensures { result ≡ every is_zero_of (sides_in skip records store.now) }
{
    for i in 0..records {
        let from = i * (skip + COEFFICIENTS) + skip;
        let to = from + COEFFICIENTS;
        if !polynomials::content::is_zero(&store[from..to]) {
            return false;
        }
    }
    true
}

// Are all right sides of the system zero?
fn no_sides(rows: &[i64], equations: usize, relations: &[i64], count: usize) -> bool
    requires equations_le_most_equations { (equations ≤ most_equations) × (equations * row_length ≤ length rows.now) }
    requires count_le_most_relations { (count ≤ most_relations) × (count * relation_length ≤ length relations.now) }
    ensures { result ≡ every is_zero_of (sides_given equations count rows.now relations.now) }
{
    sides_zero(rows, ENTRIES, equations) && sides_zero(relations, 1 + ENTRIES, count)
}

// A line for each of those right sides, zero or not. Kept beside `put_records`: a closure for the line would be lent the store each time.
fn put_sides(bytes: &mut [u8], at: usize, store: &[i64], skip: usize, records: usize) -> usize
    requires { (skip ≤ row_length) × (records ≤ most_relations) × (records * (skip + coefficient_count) ≤ length store.now)
        × (at + most_relations * side_room < 2 ^ 64) × SmallParts (skip + coefficient_count) records store.now }
    ensures { Put bytes.old at (lines (map side_line (sides_in skip records store.now))) (records * side_bytes)
        bytes.new result }
{
    let mut next = at;
    for i in 0..records {
        let from = i * (skip + COEFFICIENTS) + skip;
        let to = from + COEFFICIENTS;
        next = put_side(bytes, next, &store[from..to]);
    }
    next
}

// The fifth section, which stands exactly if some right side is not zero: the number of equations and relations, and the right sides of
// both (SCOPE 4.16).
fn put_fifth(
    bytes: &mut [u8],
    at: usize,
    rows: &[i64],
    equations: usize,
    relations: &[i64],
    count: usize,
) -> usize
    requires equations_le_most_equations { (equations ≤ most_equations) × (equations * row_length ≤ length rows.now) × SmallParts row_length equations rows.now }
    requires count_le_most_relations { (count ≤ most_relations) × (count * relation_length ≤ length relations.now)
        × SmallParts relation_length count relations.now }
    requires side_room_bound { at + (count_bytes + (most_equations + most_relations) * side_room) < 2 ^ 64 }
    ensures { Put bytes.old at (lines (side_lines (sides_given equations count rows.now relations.now)))
        (sides_bytes equations count) bytes.new result }
{
    if no_sides(rows, equations, relations, count) {
        return at;
    }
    let after_count = number_texts::put_count(bytes, at, equations + count);
    let after_rows = put_sides(bytes, after_count, rows, ENTRIES, equations);
    put_sides(bytes, after_rows, relations, 1 + ENTRIES, count)
}

// The five sections from the start of the store on (SCOPE 4.11), with a text that has the lines of the first relations.
fn put_given_sheet(
    bytes: &mut [u8],
    rows: &[i64],
    relations: &[i64],
    sizes: stores::validity::Sizes,
    count: usize,
    columns: &[usize],
    given: &[u8],
    first: usize,
) -> usize
    requires checked { Checked (the_sizes_of sizes) count rows.now relations.now × (length columns.now ≤ column_count) }
    requires first_le_count { (first ≤ count) × (given.now ≡ lines (map (relation_line (the_sizes_of sizes).l) (relations_of first relations.now))) }
    ensures { Put bytes.old 0
        (write_sheet_of (sheet_given (the_sizes_of sizes) count columns.now rows.now relations.now))
        (sheet_bytes (lines_length (the_sizes_of sizes).l (equations (the_sizes_of sizes)) count rows.now relations.now)
        (equations (the_sizes_of sizes)) count)
        bytes.new result }
{
    let equations = sizes.equations;
    let blocks = stores::validity::span(sizes) + 1;
    let shape = Shape {
        l: sizes.l,
        m: sizes.m,
        blocks,
    };
    let after_sizes = put_sizes(bytes, 0, sizes.m, sizes.l, sizes.t);
    let after_number = number_texts::put_count(bytes, after_sizes, equations);
    let after_rows = put_records(bytes, after_number, rows, 0, equations, shape);
    let after_count = number_texts::put_count(bytes, after_rows, count);
    let after_relations = put_given(bytes, after_count, relations, count, shape, given, first);
    let after_order = put_order(bytes, after_relations, columns);
    put_fifth(bytes, after_order, rows, equations, relations, count)
}

// The numbers of a term with this polynomial, at most.
fn most_in_term(p: &[i64]) -> usize
    requires { length p.now ≡ coefficient_count }
    ensures { result ≡ most_in_term_of p.now }
{
    if polynomials::content::all_zero(&p[FEW..]) {
        return SHORT_TERM;
    }
    LONG_TERM
}

// Those of the terms of a row, at most.
fn most_in_terms(row: &[i64]) -> usize
    requires { length row.now ≡ row_length }
    ensures { result ≡ most_in_terms_of row.now }
{
    let mut numbers = 0;
    for i in 0..POLYNOMIALS {
        let from = i * COEFFICIENTS;
        let to = from + COEFFICIENTS;
        numbers += most_in_term(&row[from..to]);
    }
    numbers
}

// Those of the first records of a store, each row behind so many numbers of its record.
fn most_in_records(store: &[i64], skip: usize, records: usize) -> usize
    requires { (skip ≤ 1) × (records ≤ most_relations) × (records * (skip + row_length) ≤ length store.now) }
    ensures { result ≡ most_in_records_of skip records store.now }
{
    let mut numbers = 0;
    for i in 0..records {
        let from = i * (skip + ROW) + skip;
        let to = from + ROW;
        numbers += most_in_terms(&store[from..to]);
    }
    numbers
}

// Is it plain without counting that the sheet of these rows and relations fits into so many bytes? The longest sheet of its sizes may, or the
// longest one whose polynomials have as many coefficients: each number takes at most 11 bytes.
fn plainly_fits(
    rows: &[i64],
    equations: usize,
    relations: &[i64],
    count: usize,
    room: usize,
) -> bool
    requires equations_le_most_equations { (equations ≤ most_equations) × (equations * row_length ≤ length rows.now) × SmallParts row_length equations rows.now }
    requires count_le_most_relations { (count ≤ most_relations) × (count * relation_length ≤ length relations.now)
        × SmallParts relation_length count relations.now }
    ensures { T result → (l : ℤ) → nat_abs l ≤ block_bound
        → sheet_bytes (lines_length l equations count rows.now relations.now) equations count ≤ room }
{
    let others = LINES_BYTES + (equations + count) * SIDE_BYTES;
    let most = equations + 2 * count;
    if others + NUMBER_BYTES * (most + (equations + count) * LONG_TERMS) <= room {
        return true;
    }
    let numbers = most_in_records(rows, 0, equations) + most_in_records(relations, 1, count);
    others + NUMBER_BYTES * (most + numbers) <= room
}

// The same where a text has the lines of the first relations: these take the bytes that it has, and their right sides.
fn given_fits(
    rows: &[i64],
    equations: usize,
    relations: &[i64],
    count: usize,
    given: &[u8],
    first: usize,
    room: usize,
) -> bool
    requires equations_le_most_equations { (equations ≤ most_equations) × (equations * row_length ≤ length rows.now) × SmallParts row_length equations rows.now }
    requires count_le_most_relations { (count ≤ most_relations) × (count * relation_length ≤ length relations.now)
        × SmallParts relation_length count relations.now × (first ≤ count) }
    ensures { T result → (l : ℤ) → nat_abs l ≤ block_bound
        → given.now ≡ lines (map (relation_line l) (relations_of first relations.now))
        → sheet_bytes (lines_length l equations count rows.now relations.now) equations count ≤ room }
{
    let behind = first * RELATION;
    let taken = given.len() + first * SIDE_BYTES;
    if room < taken {
        return false;
    }
    plainly_fits(
        rows,
        equations,
        &relations[behind..],
        count - first,
        room - taken,
    )
}

// The sheet of a system that passes the checks, and whose first relations a text has, line by line, as a sheet that was read gave them: these
// are copied. The store is too short where the sheet is longer (SCOPE 4.54). It is counted first where it is not plain that it fits.
// No public entry point: the caller knows that the checks pass.
pub fn write_given(
    rows: &[i64],
    relations: &[i64],
    sizes: stores::validity::Sizes,
    count: usize,
    order: [usize; COLUMNS],
    given: &[u8],
    first: usize,
    bytes: &mut [u8],
) -> Result<usize, Refusal>
    requires relations_value { check_write_of (the_sizes_of sizes) count order rows.now relations.now ≡ 0 }
    requires first_le_count { (first ≤ count) × (given.now ≡ lines (map (relation_line (the_sizes_of sizes).l) (relations_of first relations.now))) }
    ensures { call_of result bytes.new
        ≡ write_call (the_sizes_of sizes) count order rows.now relations.now bytes.old }
{
    let equations = sizes.equations;
    let n = checks::order_length(order);
    let all = &order[..];
    let columns = &all[..n];
    if given_fits(rows, equations, relations, count, given, first, bytes.len()) {
        let length = put_given_sheet(bytes, rows, relations, sizes, count, columns, given, first);
        return Ok(length);
    }
    let needed = put_given_sheet(
        &mut bytes[..0],
        rows,
        relations,
        sizes,
        count,
        columns,
        given,
        first,
    );
    if bytes.len() < needed {
        return Err(Refusal::ShortStore);
    }
    let length = put_given_sheet(bytes, rows, relations, sizes, count, columns, given, first);
    Ok(length)
}

// The same with every relation written.
pub fn write_checked(
    rows: &[i64],
    relations: &[i64],
    sizes: stores::validity::Sizes,
    count: usize,
    order: [usize; COLUMNS],
    bytes: &mut [u8],
) -> Result<usize, Refusal>
    requires { check_write_of (the_sizes_of sizes) count order rows.now relations.now ≡ 0 }
    ensures { call_of result bytes.new
        ≡ write_call (the_sizes_of sizes) count order rows.now relations.now bytes.old }
{
    let store = [0u8; 1];
    let text = &store[..];
    write_given(rows, relations, sizes, count, order, &text[..0], 0, bytes)
}

// The system of the stores and its column order as a sheet: the order's four numbers are different columns of 1..m and zeros
// past them, all four 0 for none (SCOPE 4.53). The length of the sheet; nothing is written on a refusal (SCOPE 4.54), and bytes past
// the length stay (SCOPE 4.51).
pub fn write_sheet(
    rows: &[i64],
    relations: &[i64],
    sizes: stores::validity::Sizes,
    count: usize,
    order: [usize; COLUMNS],
    bytes: &mut [u8],
) -> Result<usize, Refusal>
    ensures { call_of result bytes.new
        ≡ write_call (the_sizes_of sizes) count order rows.now relations.now bytes.old }
{
    checks::check_write(rows, relations, sizes, count, order)?;
    write_checked(rows, relations, sizes, count, order, bytes)
}
