// Zero test, degree, lowest and highest coefficient, content, division by it, and the multipliers of rule 2.
ghost use Rattle.std.specs.Prelude.{◌≡◌, not, ◌++◌, ◌-◌, ◌^◌, ◌≤◌, ◌<◌, T, pos, nat_abs, length, drop};
ghost use Rattle.std.specs.Int.Signed.{lt_z};
ghost use Rattle.algebra.specs.Polynomials as Polynomials;
ghost use Rattle.algebra.specs.Gcd as Gcd;
ghost use Rattle.polynomials.specs.Content.{Below};
ghost use Rattle.rules.specs.Limits.{small, coefficient_count};
ghost use Rattle.lists.specs.Tests.{every};
ghost use Rattle.rules.specs.Elimination as Elimination;

use crate::lengths::COEFFICIENTS;

// Stops at the first nonzero coefficient.
pub fn is_zero(p: &[i64]) -> bool
    ensures { result ≡ Polynomials.is_zero_of p.now }
{
    p.iter().all(|a| *a == 0)
}

// The same of a long list, most often of zeros only: the bits of all its numbers joined, with no stop, which the machine does for several
// numbers at once.
pub fn all_zero(p: &[i64]) -> bool
    ensures { result ≡ Polynomials.is_zero_of p.now }
{
    let mut joined = 0;
    for a in p {
        joined |= *a;
    }
    joined == 0
}

// The same of a long list that most often begins with a number other than 0, if it has one.
pub fn zero_throughout(p: &[i64]) -> bool
    ensures { result ≡ Polynomials.is_zero_of p.now }
{
    if 0 < p.len() {
        if p[0] != 0 {
            return false;
        }
    }
    all_zero(p)
}

// How many coefficients are left when those at the top are taken off four at a time as long as all four are zero: most polynomials are far
// shorter than their places.
// A while: the places go down by four as long as all four are zero, which no range says more plainly.
fn without_fours(p: &[i64]) -> usize
    ensures { (result ≤ length p.now) × T (Polynomials.is_zero_of (drop result p.now)) }
{
    let mut n = p.len();
    while 4 < n {
        let from = n - 4;
        if !all_zero(&p[from..n]) {
            return n;
        }
        n = from;
    }
    n
}

// From the top: the first nonzero coefficient found is the highest.
pub fn degree(p: &[i64]) -> usize
    ensures { result ≡ Polynomials.degree p.now }
{
    let n = without_fours(p);
    p[..n].iter().rposition(|a| *a != 0).unwrap_or(0)
}

// The highest nonzero coefficient stands at the degree.
pub fn lead(p: &[i64]) -> i64
    ensures { result ≡ Polynomials.lead p.now }
{
    let d = degree(p);
    if d < p.len() { p[d] } else { 0 }
}

// The first nonzero coefficient from the front.
pub fn lowest(p: &[i64]) -> i64
    ensures { result ≡ Polynomials.lowest p.now }
{
    for a in p {
        if *a != 0 {
            return *a;
        }
    }
    0
}

// The greatest common divisor of d and a coefficient; a zero changes nothing, and costs no division.
fn with_divisor(d: u64, a: i64) -> u64
    ensures { result ≡ Gcd.gcd (nat_abs a) d }
{
    if a == 0 {
        return d;
    }
    integers::gcd(integers::magnitude(a), d)
}

// The greatest common divisor of a number and all coefficients. Once it is 1, those that are left do not matter; below the zeros at the top
// there are few.
pub fn content_with(start: u64, p: &[i64]) -> u64
    ensures { result ≡ Gcd.gcd start (Gcd.content p.now) }
{
    let n = without_fours(p);
    let mut d = start;
    for a in &p[..n] {
        d = with_divisor(d, *a);
        if d == 1 {
            return 1;
        }
    }
    d
}

// That of the coefficients alone.
pub fn content(p: &[i64]) -> u64
    ensures { result ≡ Gcd.content p.now }
{
    content_with(0, p)
}

// Where that of a is 1, b does not matter.
pub fn content_of_both(a: &[i64], b: &[i64]) -> u64
    ensures { result ≡ Gcd.content (a.now ++ b.now) }
{
    let first = content(a);
    if first == 1 {
        return 1;
    }
    content_with(first, b)
}

// Every coefficient divided by d, toward zero, where it stands: exact where d divides them all.
pub fn divide_in_place(p: &mut [i64], d: i64)
    requires { Below (2 ^ 63) p.old × T (lt_z (pos 0) d) }
    ensures { p.new ≡ Gcd.divide_by (nat_abs d) p.old }
{
    for a in p.iter_mut() {
        *a = integers::quotient(*a, d);
    }
}

// The same in an array.
pub fn copied(p: &[i64]) -> [i64; COEFFICIENTS]
    requires { length p.now ≡ coefficient_count }
    ensures { result ≡ p.now }
{
    let mut q = [0; COEFFICIENTS];
    q.copy_from_slice(p);
    q
}

// The sixteen coefficients divided by d and put into a place; most often d is 1, and they are copied.
fn put_divided(place: &mut [i64], p: &[i64], d: i64)
    requires { (length place.old ≡ coefficient_count) × (length p.now ≡ coefficient_count) × Below (2 ^ 63) p.now × T (lt_z (pos 0) d) }
    ensures { place.new ≡ Gcd.divide_by (nat_abs d) p.now }
{
    place.copy_from_slice(p);
    if d != 1 {
        divide_in_place(place, d);
    }
}

// Sixteen coefficients with the other sign, where they stand.
fn negate_in_place(p: &mut [i64])
    requires { (length p.old ≡ coefficient_count) × Below (2 ^ 63) p.old }
    ensures { p.new ≡ Polynomials.negate p.old }
{
    for a in p.iter_mut() {
        *a = integers::negated(*a);
    }
}

// g and -h, both with the other sign if g's highest coefficient is negative (SCOPE 2.25): either way one of both stays as it is.
fn turn_signs(g: &mut [i64], h: &mut [i64])
    requires g_len { (length g.old ≡ coefficient_count) × Below (2 ^ 63) g.old }
    requires h_len { (length h.old ≡ coefficient_count) × Below (2 ^ 63) h.old }
    ensures g_after { g.new ≡ (Elimination.turn_signs_of g.old (Polynomials.negate h.old)).g }
    ensures h_after { h.new ≡ (Elimination.turn_signs_of g.old (Polynomials.negate h.old)).h }
{
    if lead(g) < 0 {
        negate_in_place(g);
    } else {
        negate_in_place(h);
    }
}

// Rule 2: g = a/d and h = -b/d, both with the other sign if g's highest coefficient is negative (SCOPE 2.23 to 2.25).
// The content d is at most C, since a and b are not both zero.
pub fn put_multipliers(g: &mut [i64], h: &mut [i64], a: &[i64], b: &[i64])
    requires g_len { (length g.old ≡ coefficient_count) × (length h.old ≡ coefficient_count) }
    requires a_len { (length a.now ≡ coefficient_count) × T (every small a.now) × T (not (Polynomials.is_zero_of (a.now ++ b.now))) }
    requires b_len { (length b.now ≡ coefficient_count) × T (every small b.now) }
    ensures g_after { g.new ≡ (Elimination.ratio a.now b.now).g }
    ensures h_after { h.new ≡ (Elimination.ratio a.now b.now).h }
{
    let divisor = content_of_both(a, b) as i64;
    put_divided(g, a, divisor);
    put_divided(h, b, divisor);
    turn_signs(g, h);
}
