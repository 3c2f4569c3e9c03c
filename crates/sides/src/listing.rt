// Rule 3: relations listed in the relation store.
ghost use Rattle.std.specs.Prelude.{◌≡◌, ◌∷◌, ◌+◌, ◌*◌, ◌≤◌, ◌<◌, T, pos, length, get_or};
ghost use Rattle.std.proofs.Math.Seq.{paste};
ghost use Rattle.rules.specs.Limits.{row_length, relation_length, small};
ghost use Rattle.lists.specs.Tests.{every};
ghost use Rattle.rules.specs.Elimination.{listing};
ghost use Rattle.multiplicities.specs.Counts.{roots_held};
ghost use Rattle.sides.specs.Lent.{side_of, Listing};
ghost use Rattle.sides.specs.Relations.{Relisted};

use crate::Side;
use multiplicities::RootsWith;
use stores::lengths::RELATION;

// The relation of the row at n0, at place k of the store.
fn save_relation(relations: &mut [i64], k: usize, n0: i64, row: &[i64])
    requires { (k * relation_length + relation_length ≤ length relations.old) × (length row.now ≡ row_length) }
    ensures { relations.new ≡ paste relations.old (k * relation_length) (n0 ∷ row.now) relation_length }
{
    let at = k * RELATION;
    relations[at] = n0;
    stores::rows::save(relations, at + 1, row);
}

// On the trailing side from the largest root down, so that n0 as given back ascends (SCOPE 2.33).
fn root_at(found: RootsWith, side: Side, k: usize) -> i64
    requires { (k < found.count) × (found.count ≤ 16) × (length found.roots ≡ 16) }
    ensures { result ≡ get_or (listing (side_of side) (roots_held found)) k (pos 0) }
{
    let n = found.count;
    match side {
        Side::Leading => found.roots[k].value,
        Side::Trailing => found.roots[n - 1 - k].value,
    }
}

// A relation for each of the roots of g, once however often it occurs: the row at it, from place `count` on
// (SCOPE 2.3, 2.31).
pub fn list_roots(relations: &mut [i64], count: usize, found: RootsWith, side: Side, row: &[i64])
    requires listing { Listing count relations.old × (count + found.count ≤ 16) × (length found.roots ≡ 16) }
    requires t { T (every small (roots_held found)) × T (every small row.now) × (length row.now ≡ row_length) }
    ensures { Relisted count row.now (listing (side_of side) (roots_held found)) relations.old relations.new }
{
    for k in 0..found.count {
        save_relation(relations, count + k, root_at(found, side, k), row);
    }
}
