// A coefficient of g·p + h·q, and products added to what a place holds.
#![tactic(auto)]

ghost use Rattle.std.specs.Prelude.{◌≡◌, ◌+◌, ◌*◌, ◌≤◌, ◌<◌, T, nat_abs, ◌+ℤ◌, ◌*ℤ◌, length};
ghost use Rattle.algebra.specs.Polynomials.{coeff, add, scale, mul};
ghost use Rattle.rules.specs.Limits.{bound, small, coefficient_count};
ghost use Rattle.lists.specs.Tests.{every};
ghost use Rattle.polynomials.specs.Content.{Below};
ghost use Rattle.products.specs.Product.{unrolled};

// Coefficient k of g·p. Term i counts where i ≤ k, i < g.len() and k - i < p.len(): there are at most as many as a polynomial has coefficients.
pub fn product_coefficient(g: &[i64], p: &[i64], k: usize) -> i64
    requires { (length g.now ≤ coefficient_count) × T (every small g.now) × T (every small p.now) × (k ≤ 30) }
    ensures value { result ≡ coeff (mul g.now p.now) k }
    ensures result_bound { nat_abs result ≤ coefficient_count * (bound * bound) }
{
    let end = if k < g.len() { k + 1 } else { g.len() };
    let first = if k < p.len() { 0 } else { k + 1 - p.len() };
    let mut sum = 0;
    for i in first..end {
        sum += g[i] * p[k - i];
    }
    sum
}

// Coefficient k of g·p + h·q: below 2^61, so it fits.
pub fn combined_coefficient(g: &[i64], p: &[i64], h: &[i64], q: &[i64], k: usize) -> i64
    requires g_len_bound { (length g.now ≤ coefficient_count) × T (every small g.now) × T (every small p.now) }
    requires h_len_bound { (length h.now ≤ coefficient_count) × T (every small h.now) × T (every small q.now) }
    requires k_bound { k ≤ 30 }
    ensures value { result ≡ coeff (add (mul g.now p.now) (mul h.now q.now)) k }
    ensures result_bound { nat_abs result ≤ 32 * (bound * bound) }
{
    product_coefficient(g, p, k) + product_coefficient(h, q, k)
}

// One number with a multiple added.
fn plus_multiple(x: i64, a: i64, b: i64) -> i64
    requires { (nat_abs x < 32 * (bound * bound)) × T (small a) × T (small b) }
    ensures { result ≡ x +ℤ a *ℤ b }
{
    x + a * b
}

// The multiple a·p, added to as many numbers.
fn add_scaled(place: &mut [i64], a: i64, p: &[i64])
    requires { (length place.old ≡ length p.now) × Below (32 * (bound * bound)) place.old × T (small a) × T (every small p.now) }
    ensures { place.new ≡ add place.old (scale a p.now) }
{
    for (k, b) in p.iter().enumerate() {
        place[k] = plus_multiple(place[k], a, *b);
    }
}

// How many numbers are added without a loop: `unrolled` of `specs/Product.antt`.
const UNROLLED: usize = 4;

// The same for four numbers, most often the case, one after the other: a loop would be worked for two at a time, and then wait for the sums
// of the turn before.
fn add_four(place: &mut [i64], a: i64, p: &[i64])
    requires { (length place.old ≡ unrolled) × (length p.now ≡ unrolled) × Below (32 * (bound * bound)) place.old × T (small a)
        × T (every small p.now) }
    ensures { place.new ≡ add place.old (scale a p.now) }
{
    place[0] = plus_multiple(place[0], a, p[0]);
    place[1] = plus_multiple(place[1], a, p[1]);
    place[2] = plus_multiple(place[2], a, p[2]);
    place[3] = plus_multiple(place[3], a, p[3]);
}

// The same by whichever of both fits the length.
fn add_multiple(place: &mut [i64], a: i64, p: &[i64])
    requires { (length place.old ≡ length p.now) × Below (32 * (bound * bound)) place.old × T (small a) × T (every small p.now) }
    ensures { place.new ≡ add place.old (scale a p.now) }
{
    if p.len() == UNROLLED {
        add_four(place, a, p);
    } else {
        add_scaled(place, a, p);
    }
}

// The product g·p, added to numbers among which it has room: for each coefficient of g a multiple of p, one power further up.
pub fn add_product(place: &mut [i64], g: &[i64], p: &[i64])
    requires g_len_bound { (length g.now ≤ coefficient_count) × T (every small g.now) × T (every small p.now) }
    requires p_nonzero { (0 < length p.now) × (length g.now + length p.now ≤ length place.old + 1) × Below (16 * (bound * bound) + 1) place.old }
    ensures { place.new ≡ add place.old (mul g.now p.now) }
{
    for (i, a) in g.iter().enumerate() {
        add_multiple(&mut place[i..i + p.len()], *a, p);
    }
}
