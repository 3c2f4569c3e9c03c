// Root test, root search, largest and smallest root.
#![tactic(auto)]

ghost use Rattle.std.specs.Prelude.{◌≡◌, ◌⊎◌, true, false, not, [], ◌∷◌, ◌++◌, ◌+◌, ◌≤◌, ◌<◌, T, pos, nat_abs, length, get_or, drop};
ghost use Rattle.algebra.specs.Polynomials as Polynomials;
ghost use Rattle.algebra.specs.Roots as Roots;
ghost use Rattle.rules.specs.Limits.{bound, small};
ghost use Rattle.lists.specs.Tests.{every};
ghost use Rattle.rules.specs.Elimination.{leading, trailing, furthest};
ghost use Rattle.roots.specs.Ascending.{insert};
ghost use Rattle.roots.specs.Bound.{Top, RootsBelow, NoneBetween};
ghost use Rattle.roots.specs.Factors.{Gap, Factored, Run, Remaining};
ghost use Rattle.roots.specs.RootSearch.{try_root, try_both, held, listed, the_factors_of, Sized, answered, OnlyRoots, Tried, Paired, NoneOf, NothingNew};

// 16 times 2^28, which is past 16 times C.
const LARGE: u64 = 4_294_967_296;
// 2^28, the first size past C: no coefficient and no root has it.
const PAST: u32 = 268_435_456;
// 2^14, whose square is 2^28.
const MIDDLE: u32 = 16_384;
// So many divisors at most are tried one by one.
const FEW: u32 = 256;

// The integer roots of a polynomial, ascending: the first `count` of `values`; the others are 0. No heap: an array and a count.
#[derive(Clone, Copy, Drop)]
pub struct RootList {
    pub count: usize,
    pub values: [i64; 16],
}

impl RootList {
    fn empty() -> RootList
        ensures { result ≡ listed [] }
    {
        RootList {
            count: 0,
            values: [0; 16],
        }
    }

    pub fn as_slice(&self) -> &[i64]
        requires { self.now.count ≤ length self.now.values }
        ensures { result.now ≡ held self.now }
    {
        &self.values[..self.count]
    }
}

// Horner's rule from the coefficient at `top`, past which there is none. A value past 2^32 never comes back to 0: where r is 2 or more
// in size it grows from there on, and otherwise 16 coefficients have no value so large.
fn vanishes(p: &[i64], top: usize, r: i64) -> bool
    requires { (length p.now ≤ 16) × T (every small p.now) × Top p.now top × (nat_abs r ≤ bound) }
    ensures { result ≡ Polynomials.is_zero_ℤ (Polynomials.eval p.now r) }
{
    let mut value = p[top];
    for i in (0..top).rev() {
        value = value * r + p[i];
        if LARGE < integers::magnitude(value) {
            return false;
        }
    }
    value == 0
}

pub fn is_root(p: &[i64], r: i64) -> bool
    requires { (length p.now ≤ 16) × T (every small p.now) }
    ensures { result ≡ Polynomials.is_zero_ℤ (Polynomials.eval p.now r) }
{
    if p.is_empty() {
        true
    } else if integers::within_bound(r) {
        vanishes(p, p.len() - 1, r)
    } else {
        polynomials::content::all_zero(p)
    }
}

// r goes to its place among the values, and those after it move up; a value that is there already is not doubled.
fn inserted(found: RootList, r: i64) -> RootList
    requires { (found ≡ listed (held found)) × (length (insert r (held found)) ≤ 16) }
    ensures { result ≡ listed (insert r (held found)) }
{
    let n = found.count;
    let mut v = found.values;
    let mut x = r;
    // By index: a place is read and then written anew.
    for i in 0..n {
        let y = v[i];
        if x == y {
            return RootList {
                count: n,
                values: v,
            };
        }
        if x < y {
            v[i] = x;
            x = y;
        }
    }
    v[n] = x;
    RootList {
        count: n + 1,
        values: v,
    }
}

// r is listed where p vanishes at r.
fn tried(p: &[i64], top: usize, r: i64, found: RootList) -> RootList
    requires { (length p.now ≤ 16) × T (every small p.now) × Top p.now top × (nat_abs r ≤ bound)
        × (found ≡ listed (held found)) × (length (try_root p.now r (held found)) ≤ 16) }
    ensures { result ≡ listed (try_root p.now r (held found)) }
{
    if vanishes(p, top, r) {
        inserted(found, r)
    } else {
        found
    }
}

// 0 is a root where the first coefficient is 0.
fn tried_zero(p: &[i64]) -> RootList
    requires { (0 < length p.now) × T (every small p.now) }
    ensures { result ≡ listed (try_root p.now (pos 0) []) }
{
    if p[0] == 0 {
        RootList {
            count: 1,
            values: [0; 16],
        }
    } else {
        RootList::empty()
    }
}

// d and -d are tried.
fn tried_both(p: &[i64], top: usize, d: u32, found: RootList) -> RootList
    requires { (length p.now ≤ 16) × T (every small p.now) × Top p.now top × (d ≤ bound)
        × (found ≡ listed (held found)) × (length (try_both p.now d (held found)) ≤ 16) }
    ensures { result ≡ listed (try_both p.now d (held found)) }
{
    let r = d as i64;
    let opposite = -r;
    tried(p, top, opposite, tried(p, top, r, found))
}

// The same, where no root reaches the limit.
fn tried_below(p: &[i64], top: usize, d: u32, limit: u32, found: RootList) -> RootList
    requires { (length p.now ≤ 16) × T (every small p.now) × Top p.now top × (d ≤ bound) × RootsBelow p.now limit
        × (found ≡ listed (held found)) × (length (try_both p.now d (held found)) ≤ 16) }
    ensures { result ≡ listed (try_both p.now d (held found)) }
{
    if d < limit {
        tried_both(p, top, d, found)
    } else {
        found
    }
}

// How far, at least, a number of size `low` to `high` and one of the given size are from cancelling out.
fn distance(low: u64, high: u64, size: u64) -> u64
    ensures { (result + size ≤ low) ⊎ (result + high ≤ size) ⊎ (result ≡ 0) }
{
    if size < low {
        low - size
    } else if high < size {
        size - high
    } else {
        0
    }
}

// Is p known not to vanish at any integer of size n to m - 1? Horner's rule on ranges: the value of the coefficients from i on has a
// size from `least` to `most`, and 2^28 stands for more. Once it is past C it grows from there on.
fn none_between(p: &[i64], top: usize, n: u64, m: u64) -> bool
    requires { T (every small p.now) × Top p.now top × (2 ≤ n) × (n ≤ 268435456) × (0 < m) × (m ≤ 268435456) }
    ensures { result ≡ true → NoneBetween p.now n m }
{
    let mut least = integers::magnitude(p[top]);
    let mut most = least;
    for i in (0..top).rev() {
        if 268435456 <= least {
            return true;
        }
        let size = integers::magnitude(p[i]);
        let high = most * m;
        least = distance(least * n, high, size);
        if least == 0 {
            return false;
        }
        most = (high + size).min(268435456);
    }
    0 < least
}

// The smallest power of 2 from which on, up to 2^14, the sizes are known to be free of roots, or one past `FEW`.
fn low_end(p: &[i64], top: usize) -> u32
    requires { T (every small p.now) × Top p.now top }
    ensures { (2 ≤ result) × (result ≤ 256 → NoneBetween p.now result 16384) }
{
    let mut n: u32 = 2;
    // Kept as a loop by value: n doubles, it counts nothing.
    while n <= FEW {
        if none_between(p, top, n as u64, MIDDLE as u64) {
            return n;
        }
        n = n * 2;
    }
    n
}

// The largest power of 2 up to 2^28 below which, from 2^14 on, the sizes are known to be free of roots.
fn high_end(p: &[i64], top: usize) -> u32
    requires { T (every small p.now) × Top p.now top }
    ensures { (0 < result) × NoneBetween p.now 16384 result }
{
    let mut m = PAST;
    // Kept as a loop by value: m halves, it counts nothing.
    while MIDDLE < m {
        if none_between(p, top, MIDDLE as u64, m as u64) {
            return m;
        }
        m = m / 2;
    }
    m
}

// A power of 2 times `from` that every root is smaller than in size. None is larger than C.
fn bound_of_roots(p: &[i64], top: usize, from: u32) -> u32
    requires { T (every small p.now) × Top p.now top × T (not (Polynomials.is_zero_of p.now)) × (2 ≤ from) }
    ensures { RootsBelow p.now result }
{
    let mut r = from;
    // Kept as a loop by value: r doubles, it counts nothing.
    while r < PAST {
        if none_between(p, top, r as u64, PAST as u64) {
            return r;
        }
        r = r * 2;
    }
    r
}

// The factors of a number: the first `count` of `values`. No heap: an array and a count.
#[derive(Drop)]
struct FactorList {
    count: usize,
    values: [u32; 28],
}

impl FactorList {
    fn empty() -> FactorList
        ensures { Sized result × (the_factors_of result ≡ []) }
    {
        FactorList {
            count: 0,
            values: [0; 28],
        }
    }

    fn push(&mut self, f: u32)
        requires { Sized self.old × (length (the_factors_of self.old) < 28) }
        ensures { Sized self.new × (the_factors_of self.new ≡ the_factors_of self.old ++ (f ∷ [])) }
    {
        self.values[self.count] = f;
        self.count += 1;
    }
}

// From the number that is tried after q to the one after that.
fn next_gap(q: u32, gap: u32) -> u32
    requires { Gap q gap }
    ensures { Gap (q + gap) result }
{
    if q < 5 { 2 } else { 6 - gap }
}

// By trial division with 2, 3, 5, 7, 11, 13, 17, .. as far as a divisor below the limit can be found.
fn factors(a: u32, limit: u32) -> FactorList
    requires { (0 < a) × (a ≤ bound) }
    ensures { Sized result × Factored limit a (the_factors_of result) }
{
    let mut list = FactorList::empty();
    let mut rest = a;
    let mut q: u32 = 2;
    let mut gap: u32 = 1;
    // Kept as a loop by value: it ends where q passes the square root of what is left.
    while q <= rest / q && q < limit {
        let quotient = rest / q;
        if quotient * q == rest {
            list.push(q);
            rest = quotient;
        } else {
            let next = next_gap(q, gap);
            q += gap;
            gap = next;
        }
    }
    if rest != 1 {
        list.push(rest);
    }
    list
}

// The first place after `from` where another factor stands.
fn after_run(factors: &[u32], from: usize) -> usize
    requires { from < length factors.now }
    ensures { (from < result) × (result ≤ length factors.now)
        × Run (get_or factors.now from 0) (drop from factors.now) (drop result factors.now) }
{
    let q = factors[from];
    for next in from + 1..factors.len() {
        if factors[next] != q {
            return next;
        }
    }
    factors.len()
}

// Both signs of d times each divisor of the product of the factors from i on, if it is below the limit: those with factor i,
// and those without it and the ones equal to it.
fn tried_products(
    p: &[i64],
    top: usize,
    limit: u32,
    factors: &[u32],
    i: usize,
    d: u32,
    found: RootList,
) -> RootList
    requires { (length p.now ≤ 16) × T (every small p.now) × Top p.now top × T (not (Polynomials.is_zero_of p.now))
        × OnlyRoots p.now found × (i ≤ length factors.now) × Remaining limit d (drop i factors.now) }
    ensures { Tried p.now limit d (drop i factors.now) found result }
{
    if i == factors.len() {
        return tried_both(p, top, d, found);
    }
    let larger = d * factors[i];
    let next = after_run(factors, i);
    if larger < limit {
        let more = tried_products(p, top, limit, factors, i + 1, larger, found);
        tried_products(p, top, limit, factors, next, d, more)
    } else {
        tried_products(p, top, limit, factors, next, d, found)
    }
}

// The candidates are 0 and, with both signs, the products of the factors of a that are below the limit.
fn by_factors(p: &[i64], top: usize, a: u32, limit: u32) -> RootList
    requires { (length p.now ≤ 16) × T (every small p.now) × Top p.now top × T (not (Polynomials.is_zero_of p.now))
        × (a ≡ nat_abs (Polynomials.lowest p.now)) × RootsBelow p.now limit }
    ensures { result ≡ listed (Roots.roots p.now) }
{
    let list = factors(a, limit);
    tried_products(
        p,
        top,
        limit,
        &list.values[..list.count],
        0,
        1,
        tried_zero(p),
    )
}

// Is one of d and -d a root?
fn either(p: &[i64], top: usize, d: u32) -> bool
    requires { (length p.now ≤ 16) × T (every small p.now) × Top p.now top × (d ≤ bound) }
    ensures { result ≡ false → NoneOf p.now d }
{
    let r = d as i64;
    if vanishes(p, top, r) {
        true
    } else {
        vanishes(p, top, -r)
    }
}

// Is a root d or a/d in size? No root reaches the limit.
fn has_root(p: &[i64], top: usize, a: u32, d: u32, limit: u32) -> bool
    requires { (length p.now ≤ 16) × T (every small p.now) × Top p.now top × T (not (Polynomials.is_zero_of p.now))
        × (a ≡ nat_abs (Polynomials.lowest p.now)) × RootsBelow p.now limit × (0 < d) × (d ≤ bound) }
    ensures { result ≡ false → NothingNew p.now a d (d + 1) }
{
    let quotient = a / d;
    if quotient * d != a {
        return false;
    }
    if either(p, top, d) {
        return true;
    }
    if quotient < limit {
        either(p, top, quotient)
    } else {
        false
    }
}

// The first d from `from` on for which d or a/d is a root in size, if it comes before the square root and before `few`.
fn next_pair(p: &[i64], top: usize, a: u32, from: u32, few: u32, limit: u32) -> u32
    requires { (length p.now ≤ 16) × T (every small p.now) × Top p.now top × T (not (Polynomials.is_zero_of p.now))
        × (a ≡ nat_abs (Polynomials.lowest p.now)) × RootsBelow p.now limit × (0 < from) }
    ensures { (from ≤ result) × NothingNew p.now a from result }
{
    let mut d = from;
    // Kept as a loop by value: it ends where d passes the square root of a.
    while d <= a / d && d < few {
        if has_root(p, top, a, d, limit) {
            return d;
        }
        d += 1;
    }
    d
}

// The candidates are 0 and, with both signs, d and a/d for the divisors d of a, up to the square root and below `few`; no root
// reaches the limit. The list is handed on only where there is a root to list.
fn by_pairs(p: &[i64], top: usize, a: u32, few: u32, limit: u32) -> RootList
    requires { (length p.now ≤ 16) × T (every small p.now) × Top p.now top × T (not (Polynomials.is_zero_of p.now))
        × (a ≡ nat_abs (Polynomials.lowest p.now)) × Paired p.now a few × RootsBelow p.now limit }
    ensures { result ≡ listed (Roots.roots p.now) }
{
    let mut found = tried_zero(p);
    let mut d = next_pair(p, top, a, 1, few, limit);
    // Kept as a loop by value: d goes on to the next pair, as far as the square root of a.
    while d <= a / d && d < few {
        found = tried_below(p, top, a / d, limit, tried_both(p, top, d, found));
        d = next_pair(p, top, a, d + 1, few, limit);
    }
    found
}

// No root has a size from low up to high. One below low is a divisor of a, and one from high on has a cofactor of at most a / high.
fn beside_gap(p: &[i64], top: usize, a: u32, low: u32) -> RootList
    requires { (length p.now ≤ 16) × T (every small p.now) × Top p.now top × T (not (Polynomials.is_zero_of p.now))
        × (a ≡ nat_abs (Polynomials.lowest p.now)) × (2 ≤ low) × NoneBetween p.now low 16384 }
    ensures { result ≡ listed (Roots.roots p.now) }
{
    let high = high_end(p, top);
    let few = low.max(a / high + 1);
    let limit = if high == PAST { low } else { PAST };
    if few <= FEW {
        by_pairs(p, top, a, few, limit)
    } else {
        by_factors(p, top, a, bound_of_roots(p, top, low))
    }
}

// The candidates are 0 and, with both signs, divisors of the size a of the lowest nonzero coefficient.
fn searched(p: &[i64], top: usize, a: u32) -> RootList
    requires { (length p.now ≤ 16) × T (every small p.now) × Top p.now top × T (not (Polynomials.is_zero_of p.now))
        × (a ≡ nat_abs (Polynomials.lowest p.now)) }
    ensures { result ≡ listed (Roots.roots p.now) }
{
    let low = low_end(p, top);
    if low <= FEW {
        beside_gap(p, top, a, low)
    } else {
        by_factors(p, top, a, bound_of_roots(p, top, low))
    }
}

// The candidate is the quotient of the two coefficients, with the other sign.
fn root_of_linear(p: &[i64]) -> RootList
    requires { (length p.now ≤ 16) × T (every small p.now) × (Polynomials.degree p.now ≡ 1) }
    ensures { result ≡ listed (Roots.roots p.now) }
{
    let quotient = p[0] / p[1];
    tried(p, 1, -quotient, RootList::empty())
}

// The integer roots, ascending, each once; none for a constant, which is not searched (SCOPE 2.31, 2.32). The size of the lowest
// nonzero coefficient is worked out here, once a polynomial.
pub fn roots(p: &[i64]) -> RootList
    requires { (length p.now ≤ 16) × T (every small p.now) }
    ensures { result ≡ listed (Roots.roots p.now) }
{
    let n = polynomials::content::degree(p);
    if n == 0 {
        RootList::empty()
    } else if n == 1 {
        root_of_linear(p)
    } else {
        searched(
            p,
            n,
            integers::magnitude(polynomials::content::lowest(p)) as u32,
        )
    }
}

// The root asked for, if there is an integer root (SCOPE 2.82).
pub fn largest_root(p: &[i64]) -> Option<i64>
    requires { (length p.now ≤ 16) × T (every small p.now) }
    ensures { result ≡ answered (furthest leading (Roots.roots p.now)) }
{
    roots(p).as_slice().last().copied()
}

pub fn smallest_root(p: &[i64]) -> Option<i64>
    requires { (length p.now ≤ 16) × T (every small p.now) }
    ensures { result ≡ answered (furthest trailing (Roots.roots p.now)) }
{
    roots(p).as_slice().first().copied()
}
