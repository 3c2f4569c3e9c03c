// Sizes, and the checks of a call on stores: sizes (2), then lengths (1), then numbers (5) (SCOPE 3.31).
ghost use Rattle.std.specs.Prelude.{◌≡◌, ◌+◌, ◌≤◌, ◌&&◌, T, leb, pos, neg_ℤ, ◌-ℤ◌, length, take, drop};
ghost use Rattle.std.specs.Int.Signed.{le_z};
ghost use Rattle.rules.specs.Limits.{relation_length, most_equations};
ghost use Rattle.lists.specs.Tests.{every};
ghost use Rattle.refusals.specs.Refusals.{refusal_in};
ghost use Rattle.rules.specs.Stores as Stores;
ghost use Rattle.stores.specs.Validity.{the_sizes_of, relation_test};

use crate::lengths::{RELATION, RELATIONS, ROW};
use refusals::Refusal;

// m unknowns, so many equations, blocks from t to l (SCOPE 1.1, 1.2).
#[derive(Clone, Copy, Debug, PartialEq, Eq)]
pub struct Sizes {
    pub m: usize,
    pub equations: usize,
    pub l: i64,
    pub t: i64,
}

// From 1 to a largest number.
pub fn counted(k: usize, most: usize) -> bool
    ensures { result ≡ (leb 1 k && leb k most) }
{
    1 <= k && k <= most
}

// Both lie from -64 to 64, t is not above l, and D is at most 4 (SCOPE 1.2).
fn blocks_right(l: i64, t: i64) -> bool
    ensures { result ≡ (le_z (neg_ℤ (pos 64)) t && le_z t l && le_z l (pos 64) && le_z (l -ℤ t) (pos 4)) }
{
    -64 <= t && t <= l && l <= 64 && l - t <= 4
}

// m is from 1 to 4, and there are at most 6 equations (SCOPE 1.1).
fn counts_right(m: usize, equations: usize) -> bool
    ensures { result ≡ (leb 1 m && leb m 4 && leb equations 6) }
{
    counted(m, 4) && equations <= 6
}

// The counts and the blocks are right (SCOPE 1.1, 3.32).
pub fn sizes_right(sizes: Sizes) -> bool
    ensures { result ≡ Stores.sizes_right_of (the_sizes_of sizes) }
{
    counts_right(sizes.m, sizes.equations) && blocks_right(sizes.l, sizes.t)
}

// D = l - t (SCOPE 1.2).
pub fn span(sizes: Sizes) -> usize
    requires { T (Stores.sizes_right_of (the_sizes_of sizes)) }
    ensures { result ≡ Stores.span (the_sizes_of sizes) }
{
    let l = sizes.l;
    let t = sizes.t;
    (l - t) as usize
}

// Every row of the store passes its number check.
pub fn rows_right(store: &[i64], sizes: Sizes, equations: usize) -> bool
    requires { T (Stores.sizes_right_of (the_sizes_of sizes)) × (Stores.row_need equations ≤ length store.now) }
    ensures { result ≡ every (Stores.row_right_of (the_sizes_of sizes)) (Stores.rows_of equations store.now) }
{
    let m = sizes.m;
    let d = span(sizes);
    for i in 0..equations {
        if !crate::checks::row_right(crate::rows::row_at(store, i * ROW), m, d) {
            return false;
        }
    }
    true
}

// The relation from a place on: its n0 within ±C, and its row.
fn relation_right(store: &[i64], at: usize, m: usize, span: usize) -> bool
    requires { at + relation_length ≤ length store.now }
    ensures { result ≡ relation_test m span (Stores.relation_of (take relation_length (drop at store.now))) }
{
    if !integers::within_bound(store[at]) {
        return false;
    }
    crate::checks::row_right(crate::rows::row_at(store, at + 1), m, span)
}

// Every relation up to the count passes its number check.
pub fn relations_right(store: &[i64], sizes: Sizes, count: usize) -> bool
    requires { T (Stores.sizes_right_of (the_sizes_of sizes)) × (count ≤ 16) × (Stores.relation_need ≤ length store.now) }
    ensures { result ≡ every (Stores.relation_right_of (the_sizes_of sizes)) (Stores.relations_of count store.now) }
{
    let m = sizes.m;
    let d = span(sizes);
    for k in 0..count {
        if !relation_right(store, k * RELATION, m, d) {
            return false;
        }
    }
    true
}

// Both stores have their needed parts (SCOPE 3.11, 3.33).
pub fn lengths_right(rows: &[i64], relations: &[i64], equations: usize) -> bool
    requires { equations ≤ most_equations }
    ensures { result ≡ Stores.lengths_right_of equations rows.now relations.now }
{
    equations * ROW <= rows.len() && RELATIONS <= relations.len()
}

// The rows, the relations in use, and zeros in the places behind those (SCOPE 3.13, 3.34).
fn numbers_right(rows: &[i64], relations: &[i64], sizes: Sizes, count: usize) -> bool
    requires t { T (Stores.sizes_right_of (the_sizes_of sizes)) × (Stores.row_need (Stores.equations (the_sizes_of sizes)) ≤ length rows.now) }
    requires count_bound { (count ≤ 16) × (Stores.relation_need ≤ length relations.now) }
    ensures { result ≡ Stores.numbers_right_of (the_sizes_of sizes) count rows.now relations.now }
{
    if !rows_right(rows, sizes, sizes.equations) {
        return false;
    }
    if !relations_right(relations, sizes, count) {
        return false;
    }
    let from = count * RELATION;
    crate::checks::unused_zero(&relations[from..RELATIONS])
}

// The refusal of the first check that fails (SCOPE 3.31).
pub fn check_stores(
    rows: &[i64],
    relations: &[i64],
    sizes: Sizes,
    count: usize,
) -> Result<(), Refusal>
    ensures { refusal_in result ≡ Stores.check_stores_of (the_sizes_of sizes) count rows.now relations.now }
{
    if !(sizes_right(sizes) && count <= 16) {
        return Err(Refusal::OutOfRange);
    }
    if !lengths_right(rows, relations, sizes.equations) {
        return Err(Refusal::ShortStore);
    }
    if !numbers_right(rows, relations, sizes, count) {
        return Err(Refusal::PastBound);
    }
    Ok(())
}
