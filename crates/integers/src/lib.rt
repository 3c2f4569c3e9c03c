// Whole numbers and signed integers as the elimination uses them: the greatest common divisor, sign and size,
// negation, division toward zero and the test of a coefficient's range. Each contract gives the result by an
// equation with a definition of `algebra`, `rules` or the kit; an i64 is a ℤ there and a u64 a ℕ.
#![tactic(auto)]

ghost use Rattle.std.specs.Prelude.{◌≡◌, ◌^◌, ◌<◌, pos, neg_ℤ, nat_abs};
ghost use Rattle.std.specs.Int.Signed.{lt_z, quot_z, rem_z};
ghost use Rattle.algebra.specs.Gcd as Gcd;
ghost use Rattle.algebra.specs.Polynomials.{is_zero_ℤ};
ghost use Rattle.rules.specs.Limits.{small};

// C: no coefficient and no n0 is past ±C (SCOPE 1.4, 1.22).
pub const BOUND: i64 = 268_435_455;

// Euclid's algorithm: the second operand falls at each call (SCOPE 8.9).
pub fn gcd(a: u64, b: u64) -> u64
    ensures { result ≡ Gcd.gcd a b }
{
    if b == 0 { a } else { gcd(b, a % b) }
}

pub fn is_zero(a: i64) -> bool
    ensures { result ≡ is_zero_ℤ a }
{
    a == 0
}

pub fn is_negative(a: i64) -> bool
    ensures { result ≡ lt_z a (pos 0) }
{
    a < 0
}

// The size of a, also of -2^63, whose negation no i64 holds.
pub fn magnitude(a: i64) -> u64
    ensures { result ≡ nat_abs a }
{
    a.unsigned_abs()
}

// Every i64 but -2^63 has a negation.
pub fn negated(a: i64) -> i64
    requires { nat_abs a < 2 ^ 63 }
    ensures { result ≡ neg_ℤ a }
{
    -a
}

// Rounded toward zero; exact where d divides a. The bound on a excludes -2^63 by -1. Most contents are 1, and cost no division.
pub fn quotient(a: i64, d: i64) -> i64
    requires { (nat_abs a < 2 ^ 63) × (0 < nat_abs d) }
    ensures { result ≡ quot_z a d }
{
    if d == 1 {
        return a;
    }
    a / d
}

// With the sign of a; zero exactly where d divides a.
pub fn remainder(a: i64, d: i64) -> i64
    requires { (nat_abs a < 2 ^ 63) × (0 < nat_abs d) }
    ensures { result ≡ rem_z a d }
{
    a % d
}

// Within ±C (SCOPE 1.4).
pub fn within_bound(a: i64) -> bool
    ensures { result ≡ small a }
{
    -BOUND <= a && a <= BOUND
}
