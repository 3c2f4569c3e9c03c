// Rule 6: a row shifted up by one block, and its limit.
ghost use Rattle.std.specs.Prelude.{◌≡◌, ◌+◌, ◌*◌, ◌≤◌, T, pos, length, take, drop, replicate};
ghost use Rattle.std.proofs.Math.Seq.{paste};
ghost use Rattle.algebra.specs.Polynomials.{shift};
ghost use Rattle.rules.specs.Limits.{entries_length, block_length, most_span, small, coefficient_count};
ghost use Rattle.rules.specs.Rows.{shift_up};
ghost use Rattle.rules.specs.Rows as Rows;
ghost use Rattle.lists.specs.Tests.{every};
ghost use Rattle.rules.specs.Stores.{row_of};
ghost use Rattle.rules.specs.Elimination.{limit_coefficients};
ghost use Rattle.polynomials.specs.Shift.{follows_rule};
ghost use Rattle.working_rows.specs.Worked.{Shown};
ghost use Rattle.working_rows.specs.Shifting.{over_front};
ghost use Rattle.working_rows.specs.Working.{left_part, numbers_held, Full};

use crate::WorkingRow;
use polynomials::lengths::COEFFICIENTS;
use refusals::Refusal;
use stores::lengths::{BLOCK, COLUMNS};

// The coefficients of p(n + 1), over zeros, by a table of Pascal's numbers and the coefficients of p up to the highest that is not 0: past it
// both have only zeros.
fn put_shifted(place: &mut [i64], table: &[[i64; COEFFICIENTS]; COEFFICIENTS], p: &[i64])
    requires { T (follows_rule table.now) × (place.old ≡ replicate coefficient_count (pos 0)) × (length p.now ≡ coefficient_count)
        × T (every small p.now) }
    ensures { place.new ≡ shift p.now }
{
    let count = polynomials::content::degree(p) + 1;
    let front = &p[..count];
    for k in 0..count {
        place[k] = polynomials::shift::shifted_coefficient(table, front, k);
    }
}

// The polynomial from the place `below` on is put with n + 1 for n from another place on: are all of its coefficients
// within ±C? Nothing is worked out for a zero polynomial.
fn put_moved(
    place: &mut [i64],
    at: usize,
    table: &[[i64; COEFFICIENTS]; COEFFICIENTS],
    below: usize,
) -> bool
    requires { T (follows_rule table.now) × (at + coefficient_count ≤ length place.old) × (below + coefficient_count ≤ length place.old)
        × T (every small (take coefficient_count (drop below place.old))) }
    ensures place_after { place.new
        ≡ paste place.old at (shift (take coefficient_count (drop below place.old))) coefficient_count }
    ensures value { result ≡ every small (shift (take coefficient_count (drop below place.old))) }
{
    let to = below + COEFFICIENTS;
    if polynomials::content::is_zero(&place[below..to]) {
        stores::rows::clear(place, at, COEFFICIENTS);
        return true;
    }
    let mut moved = [0i64; COEFFICIENTS];
    put_shifted(&mut moved, table, &place[below..to]);
    stores::rows::save(place, at, &moved[..]);
    stores::checks::all_small(&moved[..])
}

// So many blocks of entries are overwritten with the blocks one further down, with n + 1 for n, the first one first, so
// that each is read before it is overwritten: are all coefficients within ±C?
fn move_blocks(
    entries: &mut [i64],
    table: &[[i64; COEFFICIENTS]; COEFFICIENTS],
    blocks: usize,
) -> bool
    requires { T (follows_rule table.now) × (length entries.old ≡ entries_length) × T (every small entries.old)
        × (blocks ≤ most_span) }
    ensures entries_after { entries.new
        ≡ over_front (left_part (shift_up (row_of entries.old))) entries.old (blocks * block_length) }
    ensures value { result
        ≡ every small (take (blocks * block_length) (left_part (shift_up (row_of entries.old)))) }
{
    let count = blocks * COLUMNS;
    let mut within = true;
    for e in 0..count {
        let at = e * COEFFICIENTS;
        let below = at + BLOCK;
        if !put_moved(entries, at, table, below) {
            within = false;
        }
    }
    within
}

// A row shifted up by one block with n + 1 for n (SCOPE 2.61, 2.63), or the refusal where a coefficient is past ±C. Blocks move up
// as far as the width goes. The last block in use becomes zero, so that the width is one less; past it there are zeros.
pub fn shifted(row: WorkingRow) -> Result<WorkingRow, Refusal>
    requires { Full row × T (every small (numbers_held row)) × (row.width ≡ Rows.width (row_of row.entries)) }
    ensures { Shown result (limit_coefficients (shift_up (row_of (numbers_held row)))) }
{
    let table = polynomials::shift::pascal();
    let width = row.width;
    let last = width.saturating_sub(1);
    let mut entries = row.entries;
    let mut right = row.right;
    let left_within = move_blocks(&mut entries, &table, last);
    stores::rows::clear(&mut entries, last * BLOCK, BLOCK);
    let right_within = put_moved(&mut right, 0, &table, 0);
    let row = WorkingRow {
        entries,
        right,
        width: last,
    };
    crate::limits::limited(row, left_within && right_within)
}
