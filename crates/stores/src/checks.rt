// The number checks of a row: coefficients within ±C, unused positions 0.
ghost use Rattle.std.specs.Prelude.{◌≡◌, ◌&&◌, ◌+◌, ◌*◌, ◌≤◌, length};
ghost use Rattle.algebra.specs.Polynomials.{is_zero_of};
ghost use Rattle.rules.specs.Limits.{row_length, small, coefficient_count};
ghost use Rattle.rules.specs.Rows.{small_row};
ghost use Rattle.lists.specs.Tests.{every};
ghost use Rattle.rules.specs.Stores.{row_of, unused_zero_of};
ghost use Rattle.stores.specs.Checks.{place_right_of};

use crate::lengths::{COLUMNS, ENTRIES, POLYNOMIALS};
use polynomials::lengths::COEFFICIENTS;

pub fn all_small(numbers: &[i64]) -> bool
    ensures { result ≡ every small numbers.now }
{
    numbers.iter().all(|n| integers::within_bound(*n))
}

// The unused places of a store hold 0 (SCOPE 3.13): a long part of it, tested 64 numbers at a time.
pub fn unused_zero(numbers: &[i64]) -> bool
    ensures { result ≡ is_zero_of numbers.now }
{
    let (blocks, rest) = numbers.as_chunks::<64>();
    blocks.iter().all(|b| polynomials::content::all_zero(b)) && polynomials::content::all_zero(rest)
}

// The polynomial at a place of the row, block place / COLUMNS and column place % COLUMNS: outside the system's blocks and columns it
// is zero, inside its coefficients are within ±C.
fn place_right(numbers: &[i64], place: usize, m: usize, span: usize) -> bool
    requires { place * coefficient_count + coefficient_count ≤ length numbers.now }
    ensures { result ≡ place_right_of m span numbers.now place }
{
    let from = place * COEFFICIENTS;
    let to = from + COEFFICIENTS;
    let p = &numbers[from..to];
    if span < place / COLUMNS || m <= place % COLUMNS {
        polynomials::content::all_zero(p)
    } else {
        all_small(p)
    }
}

// No coefficient is past ±C, on the right side neither, and unused positions hold 0 (SCOPE 3.3, 3.34).
pub fn row_right(row: &[i64], m: usize, span: usize) -> bool
    requires { length row.now ≡ row_length }
    ensures { result ≡ (small_row (row_of row.now) && unused_zero_of m span (row_of row.now)) }
{
    for place in 0..POLYNOMIALS {
        if !place_right(row, place, m, span) {
            return false;
        }
    }
    all_small(&row[ENTRIES..])
}
