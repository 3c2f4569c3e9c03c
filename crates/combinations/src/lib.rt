// Rule 4: a combination of two rows, its division by the content and its limits.
#![tactic(auto)]

ghost use Rattle.std.specs.Prelude.{◌≡◌, true, false, not, ◌&&◌, ◌+◌, ◌*◌, ◌/◌, ◌^◌, ◌≤◌, ◌<◌, T, eqb, pos, nat_abs, length, take, drop, replicate};
ghost use Rattle.std.specs.Int.Signed.{lt_z};
ghost use Rattle.algebra.specs.Polynomials.{is_zero_of, add, mul};
ghost use Rattle.algebra.specs.Gcd.{gcd, content, divide_by};
ghost use Rattle.rules.specs.Limits.{small, coefficient_count, polynomial_count};
ghost use Rattle.rules.specs.Rows.{combine, primitive};
ghost use Rattle.rules.specs.Rows as Rows;
ghost use Rattle.lists.specs.Tests.{every};
ghost use Rattle.rules.specs.Stores.{row_of};
ghost use Rattle.rules.specs.Elimination.{limit_coefficients, limit_degrees, consistent};
ghost use Rattle.working_rows.specs.Working.{numbers_held, Full};
ghost use Rattle.working_rows.specs.Worked.{Shown};
ghost use Rattle.combinations.specs.Combination.{few, both_within_of, trim, Shortened, low_part_of, Counted, highest};
ghost use Rattle.combinations.specs.Combination.{combinations, low_numbers};
ghost use Rattle.combinations.specs.Primitive.{is_low};
ghost use Rattle.combinations.specs.Parts.{sum_of, known_of, SumsSaved, PartFits, PartMade, PartsFit, PartsMade};
ghost use Rattle.combinations.specs.Undivided.{undivided_of, RowsFit, StoredFit, Divisible, divided_row_of};
ghost use Rattle.polynomials.specs.Content.{Below};

use polynomials::lengths::COEFFICIENTS;
use refusals::Refusal;
use stores::lengths::{COLUMNS, ENTRIES};
use working_rows::WorkingRow;

// The coefficients up to the highest nonzero one.
fn trimmed(p: &[i64]) -> &[i64]
    requires { 0 < length p.now }
    ensures { result.now ≡ trim p.now }
{
    let n = polynomials::content::degree(p) + 1;
    &p[..n]
}

// Most polynomials have no more coefficients than this.
const SHORT: usize = 4;

// A multiplier that is a number has one.
const SINGLE: usize = 1;

// One of degree 1 has two.
const PAIR: usize = 2;

// How many coefficients a product can have of a multiplier of one, two or four and of a polynomial of four.
const NUMBER_SUMS: usize = SINGLE + SHORT - 1;

const PAIR_SUMS: usize = PAIR + SHORT - 1;

const FOUR_SUMS: usize = SHORT + SHORT - 1;

// A front of the coefficients, with only zeros behind it. Where it can have four it has, since lengths of one to four are hard to
// foretell, and a multiplication by 0 costs less than a wrong guess.
fn shortened(p: &[i64]) -> &[i64]
    requires { length p.now ≡ coefficient_count }
    ensures { Shortened result.now p.now }
{
    if polynomials::content::all_zero(&p[SHORT..]) {
        return &p[..SHORT];
    }
    trimmed(p)
}

// Are all coefficients of both past the first so many zero? The bits of all are joined in one loop, with no stop, which the machine does
// for several numbers at once.
fn both_within(g: &[i64], h: &[i64], n: usize) -> bool
    requires { (length g.now ≡ coefficient_count) × (length h.now ≡ coefficient_count) × (n ≤ coefficient_count) }
    ensures { result ≡ both_within_of n g.now h.now }
{
    let mut joined = 0;
    for i in n..COEFFICIENTS {
        joined |= g[i];
        joined |= h[i];
    }
    joined == 0
}

// No coefficient of g·p + h·q past this power is left.
fn top(g: &[i64], p: &[i64], h: &[i64], q: &[i64]) -> usize
    requires { Counted g.now × Counted p.now × Counted h.now × Counted q.now }
    ensures { result ≡ highest g.now p.now h.now q.now }
{
    let first = g.len() + p.len();
    let second = h.len() + q.len();
    if first < second {
        second - 2
    } else {
        first - 2
    }
}

// Has g·p + h·q a degree past 15? Its coefficients past `most` are zero.
fn passes(g: &[i64], p: &[i64], h: &[i64], q: &[i64], most: usize) -> bool
    requires counted { Counted g.now × Counted p.now × Counted h.now × Counted q.now }
    requires most_value { most ≡ highest g.now p.now h.now q.now }
    ensures { result ≡ not (is_low (add (mul g.now p.now) (mul h.now q.now))) }
{
    for k in COEFFICIENTS..=most {
        if products::combined_coefficient(g, p, h, q, k) != 0 {
            return true;
        }
    }
    false
}

// Most often the lowest coefficients tell.
fn both_zero(p: &[i64], q: &[i64]) -> bool
    requires { (0 < length p.now) × (0 < length q.now) }
    ensures { result ≡ (is_zero_of p.now && is_zero_of q.now) }
{
    if p[0] != 0 {
        return false;
    }
    if q[0] != 0 {
        return false;
    }
    polynomials::content::all_zero(p) && polynomials::content::all_zero(q)
}

// As many of the lowest coefficients of g·p + h·q as there are places.
fn put_combined(place: &mut [i64], g: &[i64], p: &[i64], h: &[i64], q: &[i64])
    requires place_len_bound { length place.old ≤ coefficient_count }
    requires counted { Counted g.now × Counted p.now × Counted h.now × Counted q.now }
    ensures { place.new ≡ take (length place.old)
        (low_part_of (add (mul g.now p.now) (mul h.now q.now))) }
{
    for (k, a) in place.iter_mut().enumerate() {
        *a = products::combined_coefficient(g, p, h, q, k);
    }
}

// The coefficients of g·p + h·q, over zeros, unless its degree is past 15: is it? Those past the highest power that it can have are
// not worked out.
fn put_low(place: &mut [i64], g: &[i64], p: &[i64], h: &[i64], q: &[i64]) -> bool
    requires place_value { place.old ≡ replicate coefficient_count (pos 0) }
    requires counted { Counted g.now × Counted p.now × Counted h.now × Counted q.now }
    ensures value { result ≡ not (is_low (add (mul g.now p.now) (mul h.now q.now))) }
    ensures place_after { result ≡ false → place.new
        ≡ low_part_of (add (mul g.now p.now) (mul h.now q.now)) }
{
    let most = top(g, p, h, q);
    if most < COEFFICIENTS {
        products::add_product(place, g, p);
        products::add_product(place, h, q);
        return false;
    }
    if passes(g, p, h, q, most) {
        return true;
    }
    put_combined(place, g, p, h, q);
    false
}

// What is known of the numbers that a combination has made so far: their content, and whether they are within ±C.
#[derive(Clone, Copy)]
struct Known {
    content: u64,
    within: bool,
}

// The content of more numbers, where that of the others is d: once it is 1, they do not matter.
fn content_with(p: &[i64], d: u64) -> u64
    ensures { result ≡ gcd (content p.now) d }
{
    if d == 1 {
        return 1;
    }
    polynomials::content::content_with(d, p)
}

// What is known of numbers and of those before them.
fn known_with(p: &[i64], before: Known) -> Known
    ensures { result ≡ known_of p.now before }
{
    Known {
        content: content_with(p, before.content),
        within: before.within && stores::checks::all_small(p),
    }
}

// The sums at the front of a place, with what is known of them and of the numbers before.
fn put_sums(place: &mut [i64], sums: &[i64], before: Known) -> Known
    requires { length sums.now ≤ length place.old }
    ensures { SumsSaved sums.now before place.old place.new result }
{
    stores::rows::save(place, 0, sums);
    known_with(sums, before)
}

// The lowest N coefficients of g·p + h·q.
fn lowest_sums<const N: usize>(g: &[i64], p: &[i64], h: &[i64], q: &[i64]) -> [i64; N]
    requires few { N ≤ coefficient_count }
    requires counted { Counted g.now × Counted p.now × Counted h.now × Counted q.now }
    ensures { result ≡ take N (low_part_of (add (mul g.now p.now) (mul h.now q.now))) }
{
    let mut sums = [0; N];
    put_combined(&mut sums, g, p, h, q);
    sums
}

// g·p + h·q in the place of p, unless its degree is past 15.
fn any_part(place: &mut [i64], g: &[i64], h: &[i64], q: &[i64], before: Known) -> Option<Known>
    requires { PartFits g.now h.now place.old q.now }
    ensures { PartMade (sum_of g.now h.now place.old q.now) before place.old place.new result }
{
    let mut low = [0i64; COEFFICIENTS];
    if put_low(&mut low, g, shortened(place), h, shortened(q)) {
        return None;
    }
    Some(put_sums(place, &low[..], before))
}

// Have both multipliers so many coefficients?
fn lengths_are(g: &[i64], h: &[i64], n: usize) -> bool
    ensures { result ≡ (eqb (length g.now) n && eqb (length h.now) n) }
{
    g.len() == n && h.len() == n
}

// The same where p and q have four coefficients, which is most often the case: where g and h have one, two or four, the sums are few, and
// no length has to be foretold.
fn short_part(place: &mut [i64], g: &[i64], h: &[i64], q: &[i64], before: Known) -> Option<Known>
    requires { PartFits g.now h.now place.old q.now × (both_within_of few place.old q.now ≡ true) }
    ensures { PartMade (sum_of g.now h.now place.old q.now) before place.old place.new result }
{
    if lengths_are(g, h, SINGLE) {
        let sums = lowest_sums::<NUMBER_SUMS>(g, &place[..SHORT], h, &q[..SHORT]);
        return Some(put_sums(place, &sums[..], before));
    }
    if lengths_are(g, h, PAIR) {
        let sums = lowest_sums::<PAIR_SUMS>(g, &place[..SHORT], h, &q[..SHORT]);
        return Some(put_sums(place, &sums[..], before));
    }
    if lengths_are(g, h, SHORT) {
        let sums = lowest_sums::<FOUR_SUMS>(g, &place[..SHORT], h, &q[..SHORT]);
        return Some(put_sums(place, &sums[..], before));
    }
    any_part(place, g, h, q, before)
}

// The same by whichever fits the lengths. Nothing is done where p and q are zero.
fn put_part(place: &mut [i64], g: &[i64], h: &[i64], q: &[i64], before: Known) -> Option<Known>
    requires { PartFits g.now h.now place.old q.now }
    ensures { PartMade (sum_of g.now h.now place.old q.now) before place.old place.new result }
{
    if both_zero(place, q) {
        return Some(before);
    }
    if both_within(place, q, SHORT) {
        return short_part(place, g, h, q, before);
    }
    any_part(place, g, h, q, before)
}

// The polynomials g·p + h·q of two lists, each in the place of its p, up to the first whose degree is past 15. Behind the first `count` both
// lists have zeros only.
fn put_parts(
    place: &mut [i64],
    g: &[i64],
    h: &[i64],
    pivot: &[i64],
    count: usize,
    before: Known,
) -> Option<Known>
    requires count_le_polynomial_count { (count ≤ polynomial_count) × (count * coefficient_count ≤ length place.old) × (length pivot.now ≡ length place.old) }
    requires parts_fit { PartsFit count g.now h.now place.old pivot.now }
    ensures { PartsMade (combinations (length place.old / coefficient_count) g.now h.now
        place.old pivot.now) before place.new result }
{
    let mut known = before;
    for e in 0..count {
        let from = e * COEFFICIENTS;
        let to = from + COEFFICIENTS;
        known = put_part(&mut place[from..to], g, h, &pivot[from..to], known)?;
    }
    Some(known)
}

// How many coefficients of both multipliers are gone over: one, two or four where there are no more.
fn common_length(g: &[i64], h: &[i64]) -> usize
    requires { (length g.now ≡ coefficient_count) × (length h.now ≡ coefficient_count) }
    ensures { (0 < result) × (result ≤ coefficient_count) × (both_within_of result g.now h.now ≡ true) }
{
    if both_within(g, h, SINGLE) {
        return SINGLE;
    }
    if both_within(g, h, PAIR) {
        return PAIR;
    }
    if both_within(g, h, SHORT) {
        return SHORT;
    }
    COEFFICIENTS
}

// Its first n coefficients, where the others are zero; where n is all of them, those up to the highest nonzero one.
fn front_of(p: &[i64], n: usize) -> &[i64]
    requires { (length p.now ≡ coefficient_count) × (0 < n) × (n ≤ coefficient_count) × T (is_zero_of (drop n p.now)) }
    ensures { Shortened result.now p.now }
{
    if n < COEFFICIENTS {
        return &p[..n];
    }
    trimmed(p)
}

// The row g × target + h × pivot, not yet divided: its content, whether its coefficients are within ±C, and the row.
#[derive(Drop)]
pub struct Combination {
    pub content: u64,
    pub within: bool,
    pub row: WorkingRow,
}

// Rule 4's row before its division, unless a degree is past 15 (SCOPE 2.41, 2.43). The pivot is looked at where it stands; `width` is its
// width.
pub fn undivided(
    g: &[i64],
    h: &[i64],
    target: WorkingRow,
    pivot: &[i64],
    width: usize,
) -> Option<Combination>
    requires { RowsFit g.now h.now target pivot.now width }
    ensures { result ≡ undivided_of g.now h.now (numbers_held target) pivot.now }
{
    let n = common_length(g, h);
    let a = front_of(g, n);
    let b = front_of(h, n);
    let blocks = target.width.max(width);
    let mut entries = target.entries;
    let mut right = target.right;
    let none = Known {
        content: 0,
        within: true,
    };
    let left = put_parts(
        &mut entries,
        a,
        b,
        &pivot[..ENTRIES],
        blocks * COLUMNS,
        none,
    )?;
    let all = put_parts(&mut right, a, b, &pivot[ENTRIES..], 1, left)?;
    let after = working_rows::entries::width_within(&entries[..], blocks);
    let row = WorkingRow {
        entries,
        right,
        width: after,
    };
    Some(Combination {
        content: all.content,
        within: all.within,
        row,
    })
}

// The same of two rows that a store holds.
pub fn undivided_stored(g: &[i64], h: &[i64], target: &[i64], pivot: &[i64]) -> Option<Combination>
    requires { StoredFit g.now h.now target.now pivot.now }
    ensures { result ≡ undivided_of g.now h.now target.now pivot.now }
{
    let width = working_rows::entries::width(&target[..ENTRIES]);
    let other = working_rows::entries::width(&pivot[..ENTRIES]);
    let row = working_rows::stored::load(target, 0, width);
    undivided(g, h, row, pivot, other)
}

// The coefficients up to the highest nonzero one divided by d; the zeros behind stay.
fn divide_part(p: &mut [i64], d: i64)
    requires { (0 < length p.old) × Below (2 ^ 63) p.old × T (lt_z (pos 0) d) }
    ensures { p.new ≡ divide_by (nat_abs d) p.old }
{
    if polynomials::content::zero_throughout(p) {
        return;
    }
    let n = polynomials::content::degree(p) + 1;
    polynomials::content::divide_in_place(&mut p[..n], d);
}

// The polynomials of a list divided by d. Behind the first `count` there are zeros only.
fn divide_parts(numbers: &mut [i64], count: usize, d: i64)
    requires count_le_polynomial_count { (count ≤ polynomial_count) × (count * coefficient_count ≤ length numbers.old)
        × T (is_zero_of (drop (count * coefficient_count) numbers.old)) }
    requires below { Below (2 ^ 63) numbers.old × T (lt_z (pos 0) d) }
    ensures { numbers.new ≡ divide_by (nat_abs d) numbers.old }
{
    for e in 0..count {
        let from = e * COEFFICIENTS;
        let to = from + COEFFICIENTS;
        divide_part(&mut numbers[from..to], d);
    }
}

// A row within its limits: a coefficient past ±C is refused with 8, a row whose left part alone is zero with 10 (SCOPE 2.44, 2.46).
fn limited(row: WorkingRow, within: bool) -> Result<WorkingRow, Refusal>
    requires { Full row × (row.width ≡ Rows.width (row_of row.entries)) × (within ≡ every small (numbers_held row)) }
    ensures { Shown result (consistent (limit_coefficients (row_of (numbers_held row)))) }
{
    if !within {
        return Err(Refusal::CoefficientPassed);
    }
    if row.width == 0 {
        if !polynomials::content::is_zero(&row.right) {
            return Err(Refusal::Contradiction);
        }
    }
    Ok(row)
}

// Are all numbers of both parts within ±C?
fn both_small(entries: &[i64], right: &[i64]) -> bool
    ensures { result ≡ (every small entries.now && every small right.now) }
{
    stores::checks::all_small(entries) && stores::checks::all_small(right)
}

// A row divided by d, which divides all its coefficients (SCOPE 2.42), within its limits.
fn divided(row: WorkingRow, d: i64) -> Result<WorkingRow, Refusal>
    requires { Divisible row d }
    ensures { Shown result (consistent (limit_coefficients (divided_row_of row d))) }
{
    let width = row.width;
    let mut entries = row.entries;
    let mut right = row.right;
    divide_parts(&mut entries, width * COLUMNS, d);
    divide_part(&mut right, d);
    let within = both_small(&entries[..], &right[..]);
    let new = WorkingRow {
        entries,
        right,
        width,
    };
    limited(new, within)
}

// The row g × target + h × pivot divided by its content (SCOPE 2.41, 2.42). A degree past 15 is refused with 7; if there is none, a
// coefficient past ±C with 8; a row whose left part alone is zero with 10 (SCOPE 2.43, 2.44, 2.46). The division does not change a
// degree, so the degrees are looked at first. Not compiled in line: its rows would take stack below the search for roots, which is the
// deepest call.
#[inline(never)]
pub fn combined(
    g: &[i64],
    h: &[i64],
    target: WorkingRow,
    pivot: &[i64],
    width: usize,
) -> Result<WorkingRow, Refusal>
    requires { RowsFit g.now h.now target pivot.now width }
    ensures { Shown result (consistent (limit_degrees (primitive (combine g.now h.now
        (row_of (numbers_held target)) (row_of pivot.now))))) }
{
    let Some(u) = undivided(g, h, target, pivot, width) else {
        return Err(Refusal::DegreePassed);
    };
    let row = u.row;
    let d = u.content;
    if 1 < d {
        return divided(row, d as i64);
    }
    limited(row, u.within)
}
