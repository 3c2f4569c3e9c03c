// Numbers put at the start of a lent store, and the numbers that a lent store holds.
#![tactic(auto)]

ghost use Rattle.std.specs.Prelude.{◌≡◌, map, ◌≤◌, nat_abs, length, take};
ghost use Rattle.std.specs.Int.Signed.{non_neg};
ghost use Rattle.lists.specs.Overwritten.{overwrite};
ghost use Rattle.lists.specs.Tests.{every};
ghost use Rattle.refusals.specs.Refusals.{refusal_in};

use refusals::Refusal;

// The number of a refusal, or 0 (SCOPE 6).
pub fn number_in<T>(checked: &Result<T, Refusal>) -> u8
    ensures { result ≡ refusal_in checked.now }
{
    match checked {
        Ok(_) => 0,
        Err(refusal) => refusal.number(),
    }
}

// The numbers of a result at the start of its store.
pub fn put(res: &mut [i64], numbers: &[i64])
    requires { length numbers.now ≤ length res.old }
    ensures { res.new ≡ overwrite numbers.now res.old }
{
    stores::rows::save(res, 0, numbers);
}

// Whether the numbers can be counts or columns.
pub fn no_negative(numbers: &[i64]) -> bool
    ensures { result ≡ every non_neg numbers.now }
{
    numbers.iter().all(|number| *number >= 0)
}

// The four columns of an order, by their sizes.
pub fn columns(order: &[i64]) -> [usize; 4]
    requires { 4 ≤ length order.now }
    ensures { result ≡ map nat_abs (take 4 order.now) }
{
    [
        integers::magnitude(order[0]) as usize,
        integers::magnitude(order[1]) as usize,
        integers::magnitude(order[2]) as usize,
        integers::magnitude(order[3]) as usize,
    ]
}
