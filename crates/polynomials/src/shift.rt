// Pascal's numbers and p(n + 1).
ghost use Rattle.std.specs.Prelude.{◌≡◌, ◌*◌, ◌^◌, ◌≤◌, ◌<◌, T, pos, nat_abs, length};
ghost use Rattle.algebra.specs.Binomials as Binomials;
ghost use Rattle.algebra.specs.Polynomials.{coeff, shift};
ghost use Rattle.rules.specs.Limits.{bound, small, coefficient_count};
ghost use Rattle.lists.specs.Tests.{every};
ghost use Rattle.polynomials.specs.Shift.{follows_rule};

use crate::lengths::COEFFICIENTS;

// Pascal's triangle to row 15, a constant table (SCOPE 2.62, 8.7): row j, number k.
const PASCAL: [[i64; COEFFICIENTS]; COEFFICIENTS] = [
    [1, 0, 0, 0, 0, 0, 0, 0, 0, 0, 0, 0, 0, 0, 0, 0],
    [1, 1, 0, 0, 0, 0, 0, 0, 0, 0, 0, 0, 0, 0, 0, 0],
    [1, 2, 1, 0, 0, 0, 0, 0, 0, 0, 0, 0, 0, 0, 0, 0],
    [1, 3, 3, 1, 0, 0, 0, 0, 0, 0, 0, 0, 0, 0, 0, 0],
    [1, 4, 6, 4, 1, 0, 0, 0, 0, 0, 0, 0, 0, 0, 0, 0],
    [1, 5, 10, 10, 5, 1, 0, 0, 0, 0, 0, 0, 0, 0, 0, 0],
    [1, 6, 15, 20, 15, 6, 1, 0, 0, 0, 0, 0, 0, 0, 0, 0],
    [1, 7, 21, 35, 35, 21, 7, 1, 0, 0, 0, 0, 0, 0, 0, 0],
    [1, 8, 28, 56, 70, 56, 28, 8, 1, 0, 0, 0, 0, 0, 0, 0],
    [1, 9, 36, 84, 126, 126, 84, 36, 9, 1, 0, 0, 0, 0, 0, 0],
    [1, 10, 45, 120, 210, 252, 210, 120, 45, 10, 1, 0, 0, 0, 0, 0],
    [
        1, 11, 55, 165, 330, 462, 462, 330, 165, 55, 11, 1, 0, 0, 0, 0,
    ],
    [
        1, 12, 66, 220, 495, 792, 924, 792, 495, 220, 66, 12, 1, 0, 0, 0,
    ],
    [
        1, 13, 78, 286, 715, 1287, 1716, 1716, 1287, 715, 286, 78, 13, 1, 0, 0,
    ],
    [
        1, 14, 91, 364, 1001, 2002, 3003, 3432, 3003, 2002, 1001, 364, 91, 14, 1, 0,
    ],
    [
        1, 15, 105, 455, 1365, 3003, 5005, 6435, 6435, 5005, 3003, 1365, 455, 105, 15, 1,
    ],
];

// The addition rule: each number is the sum of the two above it. The table is made once for a row, and lent.
pub fn pascal() -> [[i64; COEFFICIENTS]; COEFFICIENTS]
    ensures { T (follows_rule result) }
{
    PASCAL
}

fn binomial(table: &[[i64; COEFFICIENTS]; COEFFICIENTS], j: usize, k: usize) -> i64
    requires { T (follows_rule table.now) × (j < coefficient_count) × (k < coefficient_count) }
    ensures { result ≡ pos (Binomials.binomial j k) }
{
    table[j][k]
}

// The coefficient of n^k in p(n + 1) (SCOPE 2.62).
pub fn shifted_coefficient(table: &[[i64; COEFFICIENTS]; COEFFICIENTS], p: &[i64], k: usize) -> i64
    requires { T (follows_rule table.now) × (length p.now ≤ coefficient_count) × T (every small p.now) × (k < coefficient_count) }
    ensures value { result ≡ coeff (shift p.now) k }
    ensures size { nat_abs result ≤ 2 ^ coefficient_count * bound }
{
    let mut sum: i64 = 0;
    for j in k..p.len() {
        sum += binomial(table, j, k) * p[j];
    }
    sum
}
