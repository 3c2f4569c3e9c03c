// A term added into a row: its polynomial, at its place (SCOPE 10.22, 10.23).
ghost use Rattle.std.specs.Prelude.{◌≡◌, ◌≤◌, length, pos, neg_ℤ, nat_abs, ◌+ℤ◌, ◌*ℤ◌};
ghost use Rattle.algebra.specs.Polynomials.{add};
ghost use Rattle.rules.specs.Limits.{bound, coefficient_count, row_length};
ghost use Rattle.differential.specs.Differential.{most_derivative, most_power, factor_bound};
ghost use Rattle.lists.specs.Everywhere.{All};
ghost use Rattle.differential.specs.Recurrence as Recurrence;
ghost use Rattle.differential.specs.ValidRecurrence.{Within};
ghost use Rattle.differential.specs.Read.{term_of, SmallPlace};
ghost use Rattle.differential.specs.Added.{place_in_row_of, added_at, Trinomial};

use crate::terms::TermRead;
use polynomials::lengths::COEFFICIENTS;
use stores::lengths::BLOCK;

// The coefficients of a product of at most two factors n + b, from power 0 on.
#[derive(Clone, Copy, Debug, PartialEq, Eq)]
struct Product {
    constant: i64,
    linear: i64,
    square: i64,
}

// The product (n - j + 1)..(n - j + k): k derivatives, and then the variable to the power j (SCOPE 10.22).
fn rising(derivative: usize, power: usize) -> Product
    requires { (derivative ≤ most_derivative) × (power ≤ most_power) }
    ensures { Trinomial result.constant result.linear result.square (Recurrence.rising (neg_ℤ (pos power)) derivative) }
{
    let first = 1 - power as i64;
    let second = 2 - power as i64;
    if derivative == 0 {
        return Product {
            constant: 1,
            linear: 0,
            square: 0,
        };
    }
    if derivative == 1 {
        return Product {
            constant: first,
            linear: 1,
            square: 0,
        };
    }
    Product {
        constant: first * second,
        linear: first + second,
        square: 1,
    }
}

// A coefficient of a term, `factor` times a coefficient of its product, added to what stands there (SCOPE 10.23).
fn plus(number: i64, factor: i64, coefficient: i64) -> i64
    requires { (nat_abs number ≤ bound) × ((nat_abs factor ≤ factor_bound) × (nat_abs coefficient ≤ 3)) }
    ensures { result ≡ number +ℤ factor *ℤ coefficient }
{
    number + factor * coefficient
}

// The polynomial of a term added to another: it has three coefficients at most.
fn add_polynomial(p: &mut [i64], t: TermRead)
    requires p_len { (length p.old ≡ coefficient_count) × All (Within bound) p.old }
    requires small_place { SmallPlace (term_of t) × (nat_abs t.factor ≤ factor_bound) }
    ensures { p.new ≡ add p.old (Recurrence.term_polynomial (term_of t)) }
{
    let f = rising(t.derivative, t.power);
    let constant = plus(p[0], t.factor, f.constant);
    let linear = plus(p[1], t.factor, f.linear);
    let square = plus(p[2], t.factor, f.square);
    p[0] = constant;
    p[1] = linear;
    p[2] = square;
}

// Where the polynomial of a term begins in a row whose first block is that of `order`: a derivative is one block up, the variable one
// block down.
fn place(order: usize, t: TermRead) -> usize
    requires { (order ≤ most_derivative) × ((t.derivative ≤ order) × SmallPlace (term_of t)) }
    ensures { result ≡ place_in_row_of order (term_of t) }
{
    (order + t.power - t.derivative) * BLOCK + (t.column - 1) * COEFFICIENTS
}

// A term added to what a row holds already.
pub(crate) fn add_term(row: &mut [i64], order: usize, t: TermRead)
    requires row_len { (length row.old ≡ row_length) × All (Within bound) row.old }
    requires order_le_most_derivative { (order ≤ most_derivative) × ((t.derivative ≤ order) × (SmallPlace (term_of t) × (nat_abs t.factor ≤ factor_bound))) }
    ensures { row.new ≡ added_at order (term_of t) row.old }
{
    let from = place(order, t);
    let to = from + COEFFICIENTS;
    add_polynomial(&mut row[from..to], t);
}
