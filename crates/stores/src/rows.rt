// Numbers loaded from a store and saved into it.
ghost use Rattle.std.specs.Prelude.{◌≡◌, ◌+◌, ◌≤◌, pos, length, take, drop, replicate};
ghost use Rattle.std.proofs.Math.Seq.{paste};
ghost use Rattle.rules.specs.Limits.{row_length};

use crate::lengths::ROW;

// The 336 numbers of a store from a place on, where they stand.
pub fn row_at(store: &[i64], at: usize) -> &[i64]
    requires { at + row_length ≤ length store.now }
    ensures result_value { result.now ≡ take row_length (drop at store.now) }
    ensures result_len { length result.now ≡ row_length }
{
    let end = at + ROW;
    &store[at..end]
}

// The same, as an array of their own.
pub fn load(store: &[i64], at: usize) -> [i64; ROW]
    requires { at + row_length ≤ length store.now }
    ensures { result ≡ take row_length (drop at store.now) }
{
    let mut row = [0; ROW];
    row.copy_from_slice(row_at(store, at));
    row
}

// The store with numbers from a place on; all others stay.
pub fn save(store: &mut [i64], at: usize, numbers: &[i64])
    requires { at + length numbers.now ≤ length store.old }
    ensures { store.new ≡ paste store.old at numbers.now (length numbers.now) }
{
    let end = at + numbers.len();
    store[at..end].copy_from_slice(numbers);
}

// The store with zeros at `count` places from a place on; all others stay.
pub fn clear(store: &mut [i64], at: usize, count: usize)
    requires { at + count ≤ length store.old }
    ensures { store.new ≡ paste store.old at (replicate count (pos 0)) count }
{
    let end = at + count;
    store[at..end].fill(0);
}
