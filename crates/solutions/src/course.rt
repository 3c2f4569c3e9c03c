// The course from N on: the constant rows, their elimination, and the list (SCOPE 14.3, 14.4, 14.5).
ghost use Rattle.std.specs.Prelude.{◌≡◌, ◌≤◌, length, take};
ghost use Rattle.lists.specs.Overwritten.{overwrite};
ghost use Rattle.rules.specs.Calls.{zeros};
ghost use Rattle.rules.specs.Stores as Stores;
ghost use Rattle.stores.specs.Validity.{the_sizes_of};
ghost use Rattle.sides.specs.Lent.{Kept};
ghost use Rattle.constant_rows.specs.Matrices.{Told};
ghost use Rattle.constant_rows.specs.ListLengths.{largest_index, matrix_need, list_need};
ghost use Rattle.solutions.specs.SolutionAnswers.{list_for_of};
ghost use Rattle.back_substitution.specs.Listed.{list_store_of};

use refusals::Refusal;

// How many sequences the list for a given N has; all rows are made before any elimination (SCOPE 14.34). The matrix is left as the work has it, and so is the
// list store on a refusal.
pub(crate) fn list_for(
    rows: &[i64],
    relations: &[i64],
    sizes: stores::validity::Sizes,
    count: usize,
    last: usize,
    matrix: &mut [i64],
    list: &mut [i64],
) -> Result<usize, Refusal>
    requires relations_value { Stores.check_stores_of (the_sizes_of sizes) count rows.now relations.now ≡ 0 }
    requires last_le_largest_index { (last ≤ largest_index) × (matrix_need ≤ length matrix.old)
        × (list_need ≤ length list.old) × (take list_need list.old ≡ zeros list_need) }
    ensures reports { Told (λ listed l. (listed ≡ length l) × (list.new ≡ overwrite (list_store_of l) list.old))
        (list_for_of (the_sizes_of sizes) last (Stores.rows_of sizes.equations rows.now)
        (Stores.relations_of count relations.now)) result }
    ensures kept { Kept matrix_need matrix.old matrix.new × Kept list_need list.old list.new }
{
    constant_rows::constant_rows(matrix, rows, relations, sizes, count, last)?;
    let columns = (last + 1) * sizes.m;
    let asked = (last + stores::validity::span(sizes) + 1) * sizes.equations + count;
    let eliminated = echelon::eliminate(matrix, columns, asked)?;
    let settled = eliminated.settled;
    let pivots = eliminated.columns;
    back_substitution::list_sequences(matrix, columns, settled, pivots, list)
}
