// Rows that move up in a store where one before them is dropped.
ghost use Rattle.std.specs.Prelude.{◌≡◌, ◌+◌, ◌≤◌, length, drop};
ghost use Rattle.std.proofs.Math.Seq.{paste};
ghost use Rattle.rules.specs.Limits.{row_length};

use stores::lengths::ROW;

// The `count` numbers that stand one row behind a place, from that place on (SCOPE 2.11).
pub fn move_up(store: &mut [i64], at: usize, count: usize)
    requires { at + row_length + count ≤ length store.old }
    ensures { store.new ≡ paste store.old at (drop (at + row_length) store.old) count }
{
    let from = at + ROW;
    store.copy_within(from..from + count, at);
}
