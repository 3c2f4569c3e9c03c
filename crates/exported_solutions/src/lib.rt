// The answer about polynomial solutions as numbers of a lent store.
#![tactic(auto)]

ghost use Rattle.std.specs.Prelude.{◌≡◌, ◌≤◌, length};
ghost use Rattle.stores.specs.Validity.{the_sizes_of};
ghost use Rattle.solutions.specs.AnswerStores.{solutions_of, work_of};
ghost use Rattle.exported_solutions.specs.SolutionNumbers.{solution_numbers_of, begun_or, SmallSolutions, export_solutions};

use solutions::SolutionsResult;

fn solution_numbers(answer: SolutionsResult) -> [i64; 3]
    requires { SmallSolutions (solutions_of answer) }
    ensures { result ≡ solution_numbers_of (solutions_of answer) }
{
    [answer.found as i64, answer.last as i64, answer.count as i64]
}

// The result store after the call: unchanged where the refusal was found before the work began (SCOPE 3.54).
fn put_solutions(res: &mut [i64], answer: SolutionsResult)
    requires { (3 ≤ length res.old) × SmallSolutions (solutions_of answer) }
    ensures { res.new ≡ begun_or answer.begun (solution_numbers_of (solutions_of answer)) res.old }
{
    if !answer.begun {
        return;
    }
    let numbers = solution_numbers(answer);
    export_results::put(res, &numbers[..]);
}

// A result store that is too short is refused with the other lengths, so as stores that hold nothing (SCOPE 3.53).
pub fn exported(
    rows: &[i64],
    relations: &[i64],
    sizes: stores::validity::Sizes,
    count: usize,
    work_rows: &mut [i64],
    work_relations: &mut [i64],
    work_matrix: &mut [i64],
    list: &mut [i64],
    res: &mut [i64],
) -> u8
    ensures { record {
      refusal = result;
      work = work_of work_rows.new work_relations.new work_matrix.new list.new;
      result_store = res.new;
    }
        ≡ export_solutions (the_sizes_of sizes) count rows.now relations.now
        (work_of work_rows.old work_relations.old work_matrix.old list.old)
        res.old }
{
    if res.len() < 3 {
        let checked = stores::validity::check_stores(&rows[..0], &relations[..0], sizes, count);
        return export_results::number_in(&checked);
    }
    let answer = solutions::solutions(
        rows,
        relations,
        sizes,
        count,
        work_rows,
        work_relations,
        work_matrix,
        list,
    );
    put_solutions(res, answer);
    answer.refusal
}
