// Equations, read into working rows: the number of terms and then the terms (SCOPE 4.21).
ghost use Rattle.std.specs.Prelude.{◌≡◌, suc, ◌+◌, ◌*◌, ◌≤◌, length, drop, T, pos, nat_abs, ◌-ℤ◌, ◌≤ℤ◌};
ghost use Rattle.std.proofs.Math.Seq.{paste};
ghost use Rattle.rules.specs.Limits.{column_count, most_span, row_length};
ghost use Rattle.rules.specs.Stores.{span, row_of, sizes_right_of};
ghost use Rattle.rules.specs.Calls.{zeros};
ghost use Rattle.rules.specs.Sheets.{blank_row, read_equation};
ghost use Rattle.tokens.specs.Fields.{Reads};
ghost use Rattle.stores.specs.Validity.{the_sizes_of};
ghost use Rattle.reading.specs.Equations.{terms_into};
ghost use Rattle.reading.specs.Terms.{place_in_row_of};

use polynomials::lengths::COEFFICIENTS;
use refusals::Refusal;
use stores::lengths::BLOCK;

// The first n numbers of `from`, copied to the front of `to`.
pub(crate) fn copy(to: &mut [i64], from: &[i64], n: usize)
    requires { (n ≤ length to.old) × (n ≤ length from.now) }
    ensures { to.new ≡ paste to.old 0 from.now n }
{
    to[..n].copy_from_slice(&from[..n]);
}

// Where the polynomial of a block and a column begins in a row (SCOPE 3.2).
fn place_in_row(l: i64, block: i64, column: usize) -> usize
    requires block_bound { (nat_abs (l -ℤ block) ≤ most_span) × (block ≤ℤ l) }
    requires le_column { (1 ≤ column) × (column ≤ column_count) }
    ensures { result ≡ place_in_row_of l block column }
{
    (l - block) as usize * BLOCK + (column - 1) * COEFFICIENTS
}

// `count` terms, each read into its place in the numbers of a row that is zero (SCOPE 4.23).
fn terms_at(
    bytes: &[u8],
    at: usize,
    z: stores::validity::Sizes,
    count: usize,
    row: &mut [i64],
) -> Result<usize, Refusal>
    requires at_in_bounds { (at ≤ length bytes.now) × T (sizes_right_of (the_sizes_of z)) }
    requires row_value { row.old ≡ zeros row_length }
    ensures { Reads bytes.now (λ _. row_of row.new) (λ next. next) result (terms_into (the_sizes_of z) count z.l 0 blank_row (drop at bytes.now)) }
{
    let mut next = at;
    let mut block = z.l;
    let mut column = 0;
    for i in 0..count {
        let q = crate::terms::place_at(bytes, next, z, block, column)?;
        let from = place_in_row(z.l, q.block, q.column);
        let to = from + COEFFICIENTS;
        let separator = crate::counts::parting(count - (i + 1));
        next = crate::terms::polynomial_at(bytes, q.at, separator, &mut row[from..to])?;
        block = q.block;
        column = q.column;
    }
    Ok(next)
}

// An equation has at most m × (D + 1) terms (SCOPE 4.21).
fn most_terms(z: stores::validity::Sizes) -> i64
    requires { T (sizes_right_of (the_sizes_of z)) }
    ensures { result ≡ pos (z.m * suc (span (the_sizes_of z))) }
{
    (z.m * ((z.l - z.t) as usize + 1)) as i64
}

// The number of terms and then the terms, read into the numbers of a row that is zero (SCOPE 4.21).
pub(crate) fn equation_at(
    bytes: &[u8],
    at: usize,
    z: stores::validity::Sizes,
    row: &mut [i64],
) -> Result<usize, Refusal>
    requires at_in_bounds { (at ≤ length bytes.now) × T (sizes_right_of (the_sizes_of z)) }
    requires row_value { row.old ≡ zeros row_length }
    ensures { Reads bytes.now (λ _. row_of row.new) (λ next. next) result (read_equation (the_sizes_of z) (drop at bytes.now)) }
{
    let k = crate::counts::count_at(bytes, at, most_terms(z))?;
    terms_at(bytes, k.at, z, k.value as usize, row)
}
