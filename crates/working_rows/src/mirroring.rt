// The mirror: block -s for s and -n for n.
ghost use Rattle.std.specs.Prelude.{◌≡◌, ◌+◌, ◌≤◌, T, length};
ghost use Rattle.algebra.specs.Polynomials as Polynomials;
ghost use Rattle.rules.specs.Limits.{small, most_span, block_length, entries_length};
ghost use Rattle.lists.specs.Tests.{every};
ghost use Rattle.working_rows.specs.Mirroring.{Exchanged, Turned, mirrored_of};
ghost use Rattle.working_rows.specs.Working.{numbers_held, Full};

use crate::WorkingRow;
use stores::lengths::BLOCK;

// -n for n in every polynomial: odd powers change the sign. A polynomial has an even number of coefficients, so that
// these are the numbers at the odd places.
fn alternate_signs(numbers: &mut [i64])
    requires { T (every small numbers.old) }
    ensures { numbers.new ≡ Polynomials.mirror numbers.old }
{
    for i in (1..numbers.len()).step_by(2) {
        numbers[i] = integers::negated(numbers[i]);
    }
}

// The blocks from two places on change places.
fn exchange(entries: &mut [i64], a: usize, b: usize)
    requires { (a + block_length ≤ b) × (b + block_length ≤ length entries.old) }
    ensures { Exchanged a b block_length entries.old entries.new }
{
    for k in 0..BLOCK {
        entries.swap(a + k, b + k);
    }
}

// The blocks in use change places, first with last.
fn turn(entries: &mut [i64], span: usize)
    requires { (span ≤ most_span) × (length entries.old ≡ entries_length) }
    ensures { Turned span entries.old entries.new }
{
    for b in 0..(span + 1) / 2 {
        exchange(entries, b * BLOCK, (span - b) * BLOCK);
    }
}

// A row with block -s for s and -n for n (SCOPE 2.91).
pub fn mirrored(row: WorkingRow, span: usize) -> WorkingRow
    requires { (span ≤ most_span) × Full row × T (every small (numbers_held row)) }
    ensures { result ≡ mirrored_of span row }
{
    let mut entries = row.entries;
    let mut right = row.right;
    alternate_signs(&mut entries);
    alternate_signs(&mut right);
    turn(&mut entries, span);
    crate::stored::working(entries, right)
}
