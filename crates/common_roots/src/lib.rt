// Common roots leave the multipliers: both leading entries are divided by n - r for each common integer root r before rule 2's
// multipliers are taken. Every function but `put_multipliers` is private; each contract gives the result by an equation with a definition
// of `rules` or of `specs/`.
#![tactic(auto)]

ghost use Rattle.std.specs.Prelude.{◌≡◌, not, ◌++◌, ◌≤◌, T, nat_abs, length};
ghost use Rattle.algebra.specs.Polynomials.{is_zero_of};
ghost use Rattle.algebra.specs.Roots as Roots;
ghost use Rattle.lists.specs.Sifted.{keep};
ghost use Rattle.rules.specs.Limits.{bound, coefficient_count};
ghost use Rattle.rules.specs.CommonRoots.{divide_at};
ghost use Rattle.rules.specs.CommonRoots as CommonRoots;
ghost use Rattle.rules.specs.Elimination as Elimination;
ghost use Rattle.multiplicities.specs.Counts.{listed_with, held_with, times_in};
ghost use Rattle.common_roots.specs.Amended.{both};
ghost use Rattle.common_roots.specs.Divisions.{Sixteen, Fits, entries_of};
ghost use Rattle.common_roots.specs.DividedTimes.{made_at};
ghost use Rattle.common_roots.specs.Kept.{occurs};

use multiplicities::{Root, RootsWith};
use polynomials::lengths::COEFFICIENTS;

// C, past which no coefficient of a quotient goes.
const LARGEST: u64 = 268_435_455;

// The leading entries that rule 2 takes its multipliers from: that of row j, whose column it is, and that of row i.
#[derive(Drop)]
struct Entries {
    pivot: [i64; COEFFICIENTS],
    target: [i64; COEFFICIENTS],
}

// Both entries after divisions by n - r, and how many were made.
#[derive(Drop)]
struct Divisions {
    made: usize,
    entries: Entries,
}

// What is left of both entries, and how often each root that the pivot had occurs in what is left of it.
#[derive(Drop)]
struct Reduced {
    entries: Entries,
    roots: RootsWith,
}

// As long as both vanish at r and no quotient passes ±C, so many times at most: both quotients are taken, or neither.
fn divided_at(entries: Entries, r: i64, times: usize) -> Divisions
    requires { Fits entries × (nat_abs r ≤ bound) }
    ensures fits { Fits result.entries × (entries_of result.entries ≡ divide_at times r (entries_of entries)) }
    ensures made_value { result.made ≡ made_at times r (entries_of entries) }
{
    let mut left = entries;
    for made in 0..times {
        let Some(pivot) = multiplicities::divided(&left.pivot, r, LARGEST) else {
            return Divisions {
                made,
                entries: left,
            };
        };
        let Some(target) = multiplicities::divided(&left.target, r, LARGEST) else {
            return Divisions {
                made,
                entries: left,
            };
        };
        left = Entries { pivot, target };
    }
    Divisions {
        made: times,
        entries: left,
    }
}

// One root of the pivot after the other, ascending as they are listed: it is divided out as often as it occurs in both
// at most. Each division takes one from how often it occurs in the pivot; every other root occurs as often as before.
fn divided_each(entries: Entries, found: RootsWith, other: RootsWith) -> Reduced
    requires { Fits entries × T (not (is_zero_of entries.pivot)) × (found ≡ listed_with (Elimination.roots_with_of entries.pivot))
        × (other ≡ listed_with (times_in entries.target (Roots.roots entries.pivot))) }
    ensures fits { Fits result.entries × (entries_of result.entries ≡ CommonRoots.reduced (entries_of entries)) }
    ensures roots_value { result.roots ≡ listed_with (times_in result.entries.pivot (Roots.roots entries.pivot)) }
{
    let mut e = entries;
    let mut left = found;
    for i in 0..left.count {
        let root = left.roots[i];
        let d = divided_at(e, root.value, root.times.min(other.roots[i].times));
        left.roots[i].times = root.times - d.made;
        e = d.entries;
    }
    Reduced {
        entries: e,
        roots: left,
    }
}

// Those of the listed numbers that occur, each with how often.
fn occurring(all: RootsWith) -> RootsWith
    requires { (all ≡ listed_with (held_with all)) × (length (held_with all) ≤ 16) }
    ensures { result ≡ listed_with (keep occurs (held_with all)) }
{
    let mut kept = RootsWith {
        count: 0,
        roots: [Root { value: 0, times: 0 }; 16],
    };
    for root in &all.roots[..all.count] {
        if 0 < root.times {
            kept.roots[kept.count] = *root;
            kept.count += 1;
        }
    }
    kept
}

// Where there are common roots. What is left of a has no root that a has not: its roots are those of a that still occur,
// and none is searched again.
fn put_divided(
    g: &mut [i64],
    h: &mut [i64],
    a: &[i64],
    b: &[i64],
    found: RootsWith,
    other: RootsWith,
) -> RootsWith
    requires g_len { (length g.old ≡ coefficient_count) × (length h.old ≡ coefficient_count) }
    requires sixteen { Sixteen a.now × T (not (is_zero_of a.now)) × (found ≡ listed_with (Elimination.roots_with_of a.now)) }
    requires sixteen_2 { Sixteen b.now × (other ≡ listed_with (times_in b.now (Roots.roots a.now))) }
    ensures g_after { g.new ≡ (Elimination.multipliers a.now b.now).g }
    ensures h_after { h.new ≡ (Elimination.multipliers a.now b.now).h }
    ensures value { result ≡ listed_with (Elimination.roots_with_of (Elimination.multipliers a.now b.now).g) }
{
    let pivot = polynomials::content::copied(a);
    let target = polynomials::content::copied(b);
    let d = divided_each(Entries { pivot, target }, found, other);
    polynomials::content::put_multipliers(g, h, &d.entries.pivot, &d.entries.target);
    occurring(d.roots)
}

// Rule 2's multipliers put into g and h: the integer roots of g, ascending, each with how often it occurs (SCOPE 2.84).
// The multipliers of a and b as they are have the roots of a, as often as a has them. Where there are none, or b has none
// of them, they are the answer. b is counted at the roots of a, and not searched.
pub fn put_multipliers(g: &mut [i64], h: &mut [i64], a: &[i64], b: &[i64]) -> RootsWith
    requires g_len { (length g.old ≡ coefficient_count) × (length h.old ≡ coefficient_count) }
    requires sixteen { Sixteen a.now × T (not (is_zero_of (a.now ++ b.now))) }
    requires sixteen_2 { Sixteen b.now }
    ensures g_after { g.new ≡ (Elimination.multipliers a.now b.now).g }
    ensures h_after { h.new ≡ (Elimination.multipliers a.now b.now).h }
    ensures value { result ≡ listed_with (Elimination.roots_with_of (Elimination.multipliers a.now b.now).g) }
{
    polynomials::content::put_multipliers(g, h, a, b);
    let found = multiplicities::roots_with(g);
    if found.count == 0 {
        return found;
    }
    let other = multiplicities::each_with_times(b, found.numbers());
    let common = occurring(other);
    if common.count == 0 {
        found
    } else {
        put_divided(g, h, a, b, found, other)
    }
}
