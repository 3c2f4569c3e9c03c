// How often an integer root occurs in a polynomial: n - r is divided out as often as there is no rest. No large number is needed: where r
// is 2 or more in size a polynomial that vanishes at r has a quotient within ±C, and at -1, 0 and 1 the coefficients at most double from
// each place to the one below it, however often n - r is divided out. Each contract gives the result by an equation with a definition of
// `algebra`, of `rules` or of `specs/`.
#![tactic(auto)]

ghost use Rattle.std.specs.Prelude.{◌≡◌, ◌≤◌, T, IfSome, nat_abs, length};
ghost use Rattle.algebra.specs.Multiplicity as Multiplicity;
ghost use Rattle.lists.specs.Tests.{every};
ghost use Rattle.rules.specs.Limits.{bound, small, coefficient_count};
ghost use Rattle.algebra.specs.Roots as Roots;
ghost use Rattle.rules.specs.Elimination as Elimination;
ghost use Rattle.roots.specs.RootSearch.{held, listed};
ghost use Rattle.multiplicities.specs.Divisions.{Limited, Divisible, quotient_within};
ghost use Rattle.multiplicities.specs.Counts.{listed_with, roots_held, times_in, with_times_of, answered_with};

use polynomials::lengths::COEFFICIENTS;

// C, the limit of the values at an integer of size 2 or more.
const FAR: u64 = 268_435_455;
// 2^16 times C, the limit at -1, 0 and 1.
const NEAR: u64 = 17_592_185_978_880;

// No value past it comes back to 0.
fn limit_at(r: i64) -> u64
    ensures { Limited r result }
{
    if 1 < integers::magnitude(r) {
        FAR
    } else {
        NEAR
    }
}

// A polynomial divided by n - r, if there is no rest and no coefficient of the quotient passes the limit. By Horner's rule from the top: each
// value on the way is a coefficient of the quotient, and the last one the rest. A value past the limit ends the division.
pub fn divided(p: &[i64], r: i64, limit: u64) -> Option<[i64; COEFFICIENTS]>
    requires { Divisible limit r p.now }
    ensures { result ≡ quotient_within limit r p.now }
{
    let mut q = [0; COEFFICIENTS];
    let mut value = 0;
    for i in (1..COEFFICIENTS).rev() {
        value = value * r + p[i];
        if limit < integers::magnitude(value) {
            return None;
        }
        q[i - 1] = value;
    }
    let rest = value * r + p[0];
    if rest == 0 { Some(q) } else { None }
}

// How often r occurs as a root of p (SCOPE 2.84).
pub fn multiplicity(p: &[i64], r: i64) -> usize
    requires { (length p.now ≡ coefficient_count) × T (every small p.now) × (nat_abs r ≤ bound) }
    ensures { result ≡ Multiplicity.multiplicity p.now r }
{
    let limit = limit_at(r);
    let mut rest = polynomials::content::copied(p);
    for times in 0..COEFFICIENTS {
        let Some(quotient) = divided(&rest, r, limit) else {
            return times;
        };
        rest = quotient;
    }
    COEFFICIENTS
}

// An integer root, and how often it occurs.
#[derive(Clone, Copy, Drop)]
pub struct Root {
    pub value: i64,
    pub times: usize,
}

// Integer roots of a polynomial, ascending, each with how often it occurs: the first `count` of `roots`; the others are 0. No heap: an
// array and a count.
#[derive(Clone, Copy, Drop)]
pub struct RootsWith {
    pub count: usize,
    pub roots: [Root; 16],
}

impl RootsWith {
    // The numbers alone, in their order, without how often each occurs.
    pub fn numbers(&self) -> roots::RootList
        requires { self.now.count ≤ 16 }
        ensures { result ≡ listed (roots_held self.now) }
    {
        let mut values = [0; 16];
        for (i, root) in self.roots[..self.count].iter().enumerate() {
            values[i] = root.value;
        }
        roots::RootList {
            count: self.count,
            values,
        }
    }
}

// Each of the listed numbers, with how often it occurs as a root of p (SCOPE 2.84).
pub fn each_with_times(p: &[i64], found: roots::RootList) -> RootsWith
    requires p_len { (length p.now ≡ coefficient_count) × T (every small p.now) }
    requires found_value { (found ≡ listed (held found)) × (length (held found) ≤ 16) × T (every small (held found)) }
    ensures { result ≡ listed_with (times_in p.now (held found)) }
{
    let mut roots = [Root { value: 0, times: 0 }; 16];
    for (i, value) in found.as_slice().iter().enumerate() {
        roots[i] = Root {
            value: *value,
            times: multiplicity(p, *value),
        };
    }
    RootsWith {
        count: found.count,
        roots,
    }
}

// Each root once, with its multiplicity (SCOPE 2.84).
pub fn roots_with(p: &[i64]) -> RootsWith
    requires { (length p.now ≡ coefficient_count) × T (every small p.now) }
    ensures { result ≡ listed_with (Elimination.roots_with_of p.now) }
{
    each_with_times(p, roots::roots(p))
}

// A root of p, if there is one, with how often it occurs.
fn with_times(p: &[i64], root: Option<i64>) -> Option<Root>
    requires { (length p.now ≡ coefficient_count) × T (every small p.now) × IfSome root (λ r. nat_abs r ≤ bound) }
    ensures { result ≡ with_times_of p.now root }
{
    let value = root?;
    Some(Root {
        value,
        times: multiplicity(p, value),
    })
}

// The largest root with its multiplicity (SCOPE 2.82, 2.84).
pub fn largest_with(p: &[i64]) -> Option<Root>
    requires { (length p.now ≡ coefficient_count) × T (every small p.now) }
    ensures { result ≡ answered_with p.now (Elimination.furthest Elimination.leading (Roots.roots p.now)) }
{
    with_times(p, roots::largest_root(p))
}

// The smallest root with its multiplicity (SCOPE 2.82, 2.84).
pub fn smallest_with(p: &[i64]) -> Option<Root>
    requires { (length p.now ≡ coefficient_count) × T (every small p.now) }
    ensures { result ≡ answered_with p.now (Elimination.furthest Elimination.trailing (Roots.roots p.now)) }
{
    with_times(p, roots::smallest_root(p))
}
