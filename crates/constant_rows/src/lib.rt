// The constant rows of a system, for the indices 0 to N, in the matrix of a call for polynomial solutions (SCOPE 14.3). `constant_rows` asks
// for a checked system and for a matrix that is long enough.
#![tactic(auto)]

ghost use Rattle.std.specs.Prelude.{◌≡◌, suc, ◌+◌, ◌*◌, ◌≤◌, ◌<◌, T, pos, nat_abs, ◌+ℤ◌, ◌-ℤ◌, length, take, get_or};
ghost use mathlib.Core.List.{[], map, flatten};
ghost use Rattle.evaluation.specs.Evaluated.{farthest};
ghost use Rattle.lists.specs.Tests.{every};
ghost use Rattle.rules.specs.Limits.{bound, block_bound, small, row_length, block_count, column_count, most_relations};
ghost use Rattle.rules.specs.Stores as Stores;
ghost use Rattle.sides.specs.Lent.{Kept};
ghost use Rattle.stores.specs.Validity.{the_sizes_of};
ghost use Rattle.refusals.specs.Refusals.{refusal_in};
ghost use Rattle.constant_rows.specs.Constants as Constants;
ghost use Rattle.constant_rows.specs.ListLengths.{largest_index, list_columns, matrix_need};
ghost use Rattle.constant_rows.specs.Matrices.{matrix_rows, Reports};
ghost use Rattle.constant_rows.specs.ConstantStores.{judged_of, row_at, at_index, polynomial_there, Clamped};

use lengths::LIST_COLUMNS;
use polynomials::lengths::COEFFICIENTS;
use refusals::Refusal;
use stores::lengths::{BLOCK, RELATION, ROW};

pub mod lengths;

// The value of an entry, or the limit that it passes (SCOPE 14.33).
fn entry_value(p: &[i64], n: i64) -> Result<i64, Refusal>
    requires { T (every small p.now) × (nat_abs n ≤ farthest) }
    ensures { judged_of result ≡ Constants.entry_at n p.now }
{
    let Some(value) = evaluation::horner(p, n) else {
        return Err(Refusal::ValuePassed);
    };
    if !integers::within_bound(value) {
        return Err(Refusal::CoefficientPassed);
    }
    Ok(value)
}

// The block in which an equation at n meets an index, counted from block l down.
fn block_at(n: i64, l: i64, index: usize) -> i64
    requires { (nat_abs n ≤ bound) × (nat_abs l ≤ block_bound) × (index < list_columns) }
    ensures { result ≡ (l +ℤ n) -ℤ pos index }
{
    l + n - index as i64
}

// The entry of a block and an unknown.
fn block_entry(row: &[i64], n: i64, block: usize, column: usize) -> Result<i64, Refusal>
    requires t { T (every small row.now) × (length row.now ≡ row_length) × (nat_abs n ≤ farthest) }
    requires block_lt_block_count { (block < block_count) × (column < column_count) }
    ensures { judged_of result
        ≡ Constants.entry_at n (get_or (get_or (Stores.row_of row.now).blocks block []) column []) }
{
    let from = block * BLOCK + column * COEFFICIENTS;
    let to = from + COEFFICIENTS;
    entry_value(&row[from..to], n)
}

// The entry of a column, by its index and its unknown: 0 where the equation has no block for that index (SCOPE 14.32).
fn column_entry(
    row: &[i64],
    n: i64,
    sizes: stores::validity::Sizes,
    index: usize,
    unknown: usize,
) -> Result<i64, Refusal>
    requires t { T (Stores.sizes_right_of (the_sizes_of sizes)) × T (Stores.row_right_of (the_sizes_of sizes) (Stores.row_of row.now)) }
    requires t_2 { T (every small row.now) × (length row.now ≡ row_length) × (nat_abs n ≤ bound) }
    requires index_lt_list_columns { (index < list_columns) × (unknown < column_count) }
    ensures { judged_of result
        ≡ Constants.entry_at n (polynomial_there sizes.l (Stores.row_of row.now) n index unknown) }
{
    let block = block_at(n, sizes.l, index);
    if block < 0 {
        return Ok(0);
    }
    let place = block as usize;
    if stores::validity::span(sizes) < place {
        return Ok(0);
    }
    block_entry(row, n, place, unknown)
}

// A number from 0 to one past the last index: 0 for one below, and one past the last index for one above.
fn clamped(x: i64, last: usize) -> usize
    requires { last ≤ largest_index }
    ensures { Clamped x last result }
{
    if x < 0 {
        return 0;
    }
    let index = x as usize;
    if last < index {
        return last + 1;
    }
    index
}

// Zeros first, and then entry by entry at the indices that the equation meets, n + t to n + l, in the order of the columns (SCOPE 14.32,
// 14.34). Index and unknown are counted along, since a division for each column would cost more than most of the entries.
fn constant_row(
    place: &mut [i64],
    row: &[i64],
    n: i64,
    sizes: stores::validity::Sizes,
    last: usize,
) -> Result<(), Refusal>
    requires t { T (Stores.sizes_right_of (the_sizes_of sizes)) × T (Stores.row_right_of (the_sizes_of sizes) (Stores.row_of row.now)) }
    requires t_2 { T (every small row.now) × (length row.now ≡ row_length) × (nat_abs n ≤ bound) }
    requires last_le_largest_index { (last ≤ largest_index) × (length place.old ≡ list_columns) }
    ensures { Reports (λ v. take (Constants.the_columns_of sizes.m last) place.new ≡ v)
        (Constants.constant_row_of sizes.m sizes.l last (Stores.row_of row.now) n) (refusal_in result) }
{
    let m = sizes.m;
    stores::rows::clear(place, 0, (last + 1) * m);
    let first = clamped(n + sizes.t, last);
    let end = clamped(n + sizes.l + 1, last) * m;
    let mut index = first;
    let mut unknown = 0;
    for j in first * m..end {
        place[j] = column_entry(row, n, sizes, index, unknown)?;
        unknown += 1;
        if unknown == m {
            unknown = 0;
            index += 1;
        }
    }
    Ok(())
}

// The equations at n, by number (SCOPE 14.31).
fn equation_rows(
    part: &mut [i64],
    rows: &[i64],
    n: i64,
    sizes: stores::validity::Sizes,
    last: usize,
) -> Result<(), Refusal>
    requires t { T (Stores.sizes_right_of (the_sizes_of sizes)) × (Stores.row_need sizes.equations ≤ length rows.now)
        × T (every (Stores.row_right_of (the_sizes_of sizes)) (Stores.rows_of sizes.equations rows.now)) }
    requires n_bound { (nat_abs n ≤ bound) × (last ≤ largest_index) × (length part.old ≡ sizes.equations * list_columns) }
    ensures { Reports (λ v. matrix_rows (Constants.the_columns_of sizes.m last) sizes.equations part.new ≡ v)
        (Constants.each (row_at (the_sizes_of sizes) last) (at_index n (Stores.rows_of sizes.equations rows.now))) (refusal_in result) }
{
    let equations = sizes.equations;
    for i in 0..equations {
        let at = i * LIST_COLUMNS;
        let end = at + LIST_COLUMNS;
        let row = stores::rows::row_at(rows, i * ROW);
        constant_row(&mut part[at..end], row, n, sizes, last)?;
    }
    Ok(())
}

// The equations by rising n, from -l to N - t (SCOPE 14.31).
fn indexed_rows(
    part: &mut [i64],
    rows: &[i64],
    sizes: stores::validity::Sizes,
    last: usize,
) -> Result<(), Refusal>
    requires t { T (Stores.sizes_right_of (the_sizes_of sizes)) × (Stores.row_need sizes.equations ≤ length rows.now)
        × T (every (Stores.row_right_of (the_sizes_of sizes)) (Stores.rows_of sizes.equations rows.now)) }
    requires last_le_largest_index { (last ≤ largest_index)
        × (length part.old ≡ suc (last + Stores.span (the_sizes_of sizes)) * sizes.equations * list_columns) }
    ensures { Reports (λ v. matrix_rows (Constants.the_columns_of sizes.m last)
        (suc (last + Stores.span (the_sizes_of sizes)) * sizes.equations) part.new ≡ v)
        (Constants.each (row_at (the_sizes_of sizes) last)
        (flatten (map (λ n. at_index n (Stores.rows_of sizes.equations rows.now)) (Constants.row_indices (the_sizes_of sizes) last)))) (refusal_in result) }
{
    let indices = last + stores::validity::span(sizes) + 1;
    let width = sizes.equations * LIST_COLUMNS;
    let l = sizes.l;
    for k in 0..indices {
        let at = k * width;
        let end = at + width;
        equation_rows(&mut part[at..end], rows, k as i64 - l, sizes, last)?;
    }
    Ok(())
}

// The relations in their order (SCOPE 14.31).
fn relation_rows(
    part: &mut [i64],
    relations: &[i64],
    count: usize,
    sizes: stores::validity::Sizes,
    last: usize,
) -> Result<(), Refusal>
    requires t { T (Stores.sizes_right_of (the_sizes_of sizes)) × (count ≤ most_relations) × (Stores.relation_need ≤ length relations.now)
        × T (every (Stores.relation_right_of (the_sizes_of sizes)) (Stores.relations_of count relations.now)) }
    requires last_le_largest_index { (last ≤ largest_index) × (length part.old ≡ count * list_columns) }
    ensures { Reports (λ v. matrix_rows (Constants.the_columns_of sizes.m last) count part.new ≡ v)
        (Constants.each (row_at (the_sizes_of sizes) last) (Stores.relations_of count relations.now)) (refusal_in result) }
{
    for i in 0..count {
        let at = i * LIST_COLUMNS;
        let end = at + LIST_COLUMNS;
        let from = i * RELATION;
        let row = stores::rows::row_at(relations, from + 1);
        constant_row(&mut part[at..end], row, relations[from], sizes, last)?;
    }
    Ok(())
}

// All rows are made, or the first limit that is passed is told (SCOPE 14.31, 14.34).
pub fn constant_rows(
    matrix: &mut [i64],
    rows: &[i64],
    relations: &[i64],
    sizes: stores::validity::Sizes,
    count: usize,
    last: usize,
) -> Result<(), Refusal>
    requires { (Stores.check_stores_of (the_sizes_of sizes) count rows.now relations.now ≡ 0) × (last ≤ largest_index)
        × (matrix_need ≤ length matrix.old) }
    ensures reports { Reports (λ v. matrix_rows (Constants.the_columns_of sizes.m last) (length v) matrix.new ≡ v)
        (Constants.constant_rows_of (the_sizes_of sizes) last (Stores.rows_of sizes.equations rows.now)
        (Stores.relations_of count relations.now)) (refusal_in result) }
    ensures kept { Kept matrix_need matrix.old matrix.new }
{
    let equations = (last + stores::validity::span(sizes) + 1) * sizes.equations;
    let middle = equations * LIST_COLUMNS;
    indexed_rows(&mut matrix[0..middle], rows, sizes, last)?;
    let end = middle + count * LIST_COLUMNS;
    relation_rows(&mut matrix[middle..end], relations, count, sizes, last)
}
