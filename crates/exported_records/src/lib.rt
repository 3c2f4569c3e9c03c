// The answer to recorded vectors as numbers of a lent store.
#![tactic(auto)]

ghost use Rattle.std.specs.Prelude.{◌≡◌, ◌≤◌, Ok, length};
ghost use Rattle.stores.specs.Validity.{the_sizes_of};
ghost use Rattle.records.specs.RecordAnswers.{answer_of};
ghost use Rattle.export_results.specs.Results.{kept_or};
ghost use Rattle.exported_records.specs.RecordNumbers.{record_numbers_of, record_refusal_of, SmallAnswer, export_record};

use records::Finding;
use refusals::Refusal;

fn record_numbers(answer: Result<Finding, Refusal>) -> [i64; 4]
    requires { SmallAnswer (answer_of answer) }
    ensures { result ≡ record_numbers_of (answer_of answer) }
{
    match answer {
        Ok(finding) => finding_numbers(finding),
        Err(_) => [0; 4],
    }
}

fn finding_numbers(finding: Finding) -> [i64; 4]
    requires { SmallAnswer (answer_of (Ok finding)) }
    ensures { result ≡ record_numbers_of (answer_of (Ok finding)) }
{
    match finding {
        Finding::Fits(tested) => [0, tested as i64, 0, 0],
        Finding::Equation(i, n, sum) => [1, i as i64, n, sum],
        Finding::Relation(i, n, sum) => [2, i as i64, n, sum],
    }
}

fn record_refusal(answer: Result<Finding, Refusal>) -> u8
    ensures { result ≡ record_refusal_of (answer_of answer) }
{
    match answer {
        Ok(_) => 0,
        Err(refusal) => refusal.number(),
    }
}

// The result store after an answer: unchanged where the refusal was found before the work began (SCOPE 3.54).
fn put_record(res: &mut [i64], answer: Result<Finding, Refusal>, refusal: u8)
    requires { (4 ≤ length res.old) × SmallAnswer (answer_of answer) }
    ensures { res.new ≡ kept_or refusal (record_numbers_of (answer_of answer)) res.old }
{
    if stores::validity::counted(refusal as usize, 5) {
        return;
    }
    let numbers = record_numbers(answer);
    export_results::put(res, &numbers[..]);
}

// A result store that is too short is refused with the other lengths, so as stores that hold nothing (SCOPE 3.53).
pub fn exported(
    rows: &[i64],
    relations: &[i64],
    sizes: stores::validity::Sizes,
    count: usize,
    first: i64,
    vectors: usize,
    values: &[i64],
    res: &mut [i64],
) -> u8
    ensures { record { refusal = result; result_store = res.new }
        ≡ export_record (the_sizes_of sizes) count first vectors
        rows.now relations.now values.now res.old }
{
    if res.len() < 4 {
        let none = records::check_record(
            &rows[..0],
            &relations[..0],
            sizes,
            count,
            first,
            vectors,
            &values[..0],
        );
        return record_refusal(none);
    }
    let answer = records::check_record(rows, relations, sizes, count, first, vectors, values);
    let refusal = record_refusal(answer);
    put_record(res, answer, refusal);
    refusal
}
