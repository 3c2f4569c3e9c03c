// The equations and the relations of a sheet, each read behind its count (SCOPE 4.11) into a store of its size that is zero.
ghost use Rattle.std.specs.Prelude.{◌≡◌, ◌*◌, ◌≤◌, length, drop, T};
ghost use Rattle.rules.specs.Limits.{most_equations, row_length, relation_length};
ghost use Rattle.rules.specs.Stores.{rows_of, relation_of, relations_of, sizes_right_of};
ghost use Rattle.rules.specs.Calls.{zeros};
ghost use Rattle.rules.specs.Sheets.{read_equations, read_relation, read_relations};
ghost use Rattle.tokens.specs.Fields.{Reads};
ghost use Rattle.stores.specs.Validity.{the_sizes_of};

use refusals::Refusal;
use stores::lengths::{RELATION, ROW};

// So many equations, read into the rows of `rows` (SCOPE 4.13).
pub(crate) fn equations_at(
    bytes: &[u8],
    at: usize,
    z: stores::validity::Sizes,
    equations: usize,
    rows: &mut [i64],
) -> Result<usize, Refusal>
    requires at_in_bounds { (at ≤ length bytes.now) × T (sizes_right_of (the_sizes_of z)) }
    requires equations_le_most_equations { (equations ≤ most_equations) × (rows.old ≡ zeros (equations * row_length)) }
    ensures { Reads bytes.now (λ _. rows_of equations rows.new) (λ next. next) result
        (read_equations (the_sizes_of z) equations (drop at bytes.now)) }
{
    let mut next = at;
    for i in 0..equations {
        let from = i * ROW;
        let to = from + ROW;
        next = crate::equations::equation_at(bytes, next, z, &mut rows[from..to])?;
    }
    Ok(next)
}

// n0 and an equation, read into the numbers of a relation (SCOPE 3.4, 4.14).
fn relation_at(
    bytes: &[u8],
    at: usize,
    z: stores::validity::Sizes,
    relation: &mut [i64],
) -> Result<usize, Refusal>
    requires at_in_bounds { (at ≤ length bytes.now) × T (sizes_right_of (the_sizes_of z)) }
    requires relation_value { relation.old ≡ zeros relation_length }
    ensures { Reads bytes.now (λ _. relation_of relation.new) (λ next. next) result (read_relation (the_sizes_of z) (drop at bytes.now)) }
{
    let n = tokens::small_at(bytes, at)?;
    relation[0] = n.value;
    crate::equations::equation_at(bytes, n.at, z, &mut relation[1..])
}

// The relations, read into the parts of `relations` (SCOPE 4.14).
pub(crate) fn relations_at(
    bytes: &[u8],
    at: usize,
    z: stores::validity::Sizes,
    count: usize,
    relations: &mut [i64],
) -> Result<usize, Refusal>
    requires at_in_bounds { (at ≤ length bytes.now) × T (sizes_right_of (the_sizes_of z)) }
    requires count_bound { (count ≤ 16) × (relations.old ≡ zeros (count * relation_length)) }
    ensures { Reads bytes.now (λ _. relations_of count relations.new) (λ next. next) result (read_relations (the_sizes_of z) count (drop at bytes.now)) }
{
    let mut next = at;
    for i in 0..count {
        let from = i * RELATION;
        let to = from + RELATION;
        next = relation_at(bytes, next, z, &mut relations[from..to])?;
    }
    Ok(next)
}
