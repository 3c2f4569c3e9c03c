// The value of a polynomial at an integer by Horner's rule, with a limit on every value on the way, for recorded vectors and for
// polynomial solutions.
#![tactic(auto)]

ghost use Rattle.std.specs.Prelude.{◌≡◌, ◌≤◌, T, nat_abs};
ghost use Rattle.lists.specs.Tests.{every};
ghost use Rattle.rules.specs.Limits.{small};
ghost use Rattle.evaluation.specs.Evaluated as Evaluated;

// 2^40, which no value of Horner's rule passes (SCOPE 12.31, 14.33).
const LIMIT: u64 = 1_099_511_627_776;

// How many coefficients there are up to the highest that is not 0: those above leave the value at 0. All are looked at, with no stop: where
// the highest stands cannot be foreseen.
pub fn used(p: &[i64]) -> usize
    ensures { result ≡ Evaluated.used p.now }
{
    let mut reached = 0;
    for (i, a) in p.iter().enumerate() {
        if *a != 0 {
            reached = i + 1;
        }
    }
    reached
}

// Horner's rule, from the highest power down, over all coefficients that are there (SCOPE 12.31). It begins with the highest coefficient,
// which is within ±C and so within the limit. There is none where a value on the way passes the limit.
pub fn evaluate(p: &[i64], n: i64) -> Option<i64>
    requires { T (every small p.now) × (nat_abs n ≤ Evaluated.farthest) }
    ensures { Evaluated.formed_of result ≡ Evaluated.horner n p.now }
{
    let Some((top, lower)) = p.split_last() else {
        return Some(0);
    };
    let mut value = *top;
    for a in lower.iter().rev() {
        value = *a + n * value;
        if LIMIT < integers::magnitude(value) {
            return None;
        }
    }
    Some(value)
}

// The same, where it is not known how many coefficients matter.
pub fn horner(p: &[i64], n: i64) -> Option<i64>
    requires { T (every small p.now) × (nat_abs n ≤ Evaluated.farthest) }
    ensures { Evaluated.formed_of result ≡ Evaluated.horner n p.now }
{
    let end = used(p);
    evaluate(&p[..end], n)
}
