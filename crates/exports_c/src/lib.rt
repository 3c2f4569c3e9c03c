// The static library for C and other languages (include/wurgalm.h): each function of `exports` under its name, with its clauses.
#![tactic(auto)]

ghost use Rattle.std.specs.Prelude.{◌≡◌};
ghost use Rattle.rules.specs.Elimination.{leading, trailing};
ghost use Rattle.solutions.specs.AnswerStores.{work_of};
ghost use Rattle.exported_runs.specs.Runs.{export_run};
ghost use Rattle.exported_sheets.specs.Writes.{export_write};
ghost use Rattle.exported_sheets.specs.Reads.{export_read};
ghost use Rattle.exports.specs.Batches.{export_batch};
ghost use Rattle.exported_sheets.specs.Differentials.{export_differential, export_recurrence};
ghost use Rattle.exported_records.specs.RecordNumbers.{export_record};
ghost use Rattle.exported_steps.specs.StateNumbers.{export_prepare};
ghost use Rattle.exported_steps.specs.StepNumbers.{export_steps};
ghost use Rattle.exported_logs.specs.LogNumbers.{export_replay, export_logged};
ghost use Rattle.exported_solutions.specs.SolutionNumbers.{export_solutions};

#[unsafe(no_mangle)]
pub extern "C" fn wurgalm_run_leading(
    rows: &mut [i64],
    relations: &mut [i64],
    m: usize,
    equations: usize,
    l: i64,
    t: i64,
    count: usize,
    res: &mut [i64],
) -> u8
    ensures { record { refusal = result; row_store = rows.new; relation_store = relations.new; result_store = res.new }
        ≡ export_run leading (record { m = m; equations = equations; l = l; t = t }) count rows.old relations.old res.old }
{
    exports::wurgalm_run_leading(rows, relations, m, equations, l, t, count, res)
}

#[unsafe(no_mangle)]
pub extern "C" fn wurgalm_run_trailing(
    rows: &mut [i64],
    relations: &mut [i64],
    m: usize,
    equations: usize,
    l: i64,
    t: i64,
    count: usize,
    res: &mut [i64],
) -> u8
    ensures { record { refusal = result; row_store = rows.new; relation_store = relations.new; result_store = res.new }
        ≡ export_run trailing (record { m = m; equations = equations; l = l; t = t }) count rows.old relations.old res.old }
{
    exports::wurgalm_run_trailing(rows, relations, m, equations, l, t, count, res)
}

#[unsafe(no_mangle)]
pub extern "C" fn wurgalm_read_sheet(
    bytes: &[u8],
    rows: &mut [i64],
    relations: &mut [i64],
    res: &mut [i64],
) -> u8
    ensures { record { refusal = result; row_store = rows.new; relation_store = relations.new; result_store = res.new }
        ≡ export_read bytes.now rows.old relations.old res.old }
{
    exports::wurgalm_read_sheet(bytes, rows, relations, res)
}

#[unsafe(no_mangle)]
pub extern "C" fn wurgalm_write_sheet(
    rows: &[i64],
    relations: &[i64],
    m: usize,
    equations: usize,
    l: i64,
    t: i64,
    count: usize,
    order: &[i64],
    bytes: &mut [u8],
    res: &mut [i64],
) -> u8
    ensures { record { refusal = result; byte_store = bytes.new; result_store = res.new }
        ≡ export_write (record { m = m; equations = equations; l = l; t = t }) count order.now rows.now relations.now
        bytes.old res.old }
{
    exports::wurgalm_write_sheet(
        rows, relations, m, equations, l, t, count, order, bytes, res,
    )
}

#[unsafe(no_mangle)]
pub extern "C" fn wurgalm_batch(input: &[u8], output: &mut [u8], res: &mut [i64]) -> u8
    ensures { record { refusal = result; byte_store = output.new; result_store = res.new }
        ≡ export_batch input.now output.old res.old }
{
    exports::wurgalm_batch(input, output, res)
}

#[unsafe(no_mangle)]
pub extern "C" fn wurgalm_read_differential(
    bytes: &[u8],
    rows: &mut [i64],
    relations: &mut [i64],
    res: &mut [i64],
) -> u8
    ensures { record { refusal = result; row_store = rows.new; relation_store = relations.new; result_store = res.new }
        ≡ export_differential bytes.now rows.old relations.old res.old }
{
    exports::wurgalm_read_differential(bytes, rows, relations, res)
}

#[unsafe(no_mangle)]
pub extern "C" fn wurgalm_write_recurrence(sheet: &[u8], bytes: &mut [u8], res: &mut [i64]) -> u8
    ensures { record { refusal = result; byte_store = bytes.new; result_store = res.new }
        ≡ export_recurrence sheet.now bytes.old res.old }
{
    exports::wurgalm_write_recurrence(sheet, bytes, res)
}

#[unsafe(no_mangle)]
pub extern "C" fn wurgalm_check_record(
    rows: &[i64],
    relations: &[i64],
    m: usize,
    equations: usize,
    l: i64,
    t: i64,
    count: usize,
    first: i64,
    vectors: usize,
    values: &[i64],
    res: &mut [i64],
) -> u8
    ensures { record { refusal = result; result_store = res.new }
        ≡ export_record (record { m = m; equations = equations; l = l; t = t }) count first vectors
        rows.now relations.now values.now res.old }
{
    exports::wurgalm_check_record(
        rows, relations, m, equations, l, t, count, first, vectors, values, res,
    )
}

#[unsafe(no_mangle)]
pub extern "C" fn wurgalm_prepare(
    rows: &[i64],
    relations: &[i64],
    m: usize,
    equations: usize,
    l: i64,
    t: i64,
    count: usize,
    state: &mut [i64],
) -> u8
    ensures { record { refusal = result; state_store = state.new }
        ≡ export_prepare (record { m = m; equations = equations; l = l; t = t }) count
        rows.now relations.now state.old }
{
    exports::wurgalm_prepare(rows, relations, m, equations, l, t, count, state)
}

#[unsafe(no_mangle)]
pub extern "C" fn wurgalm_run_steps(
    rows: &mut [i64],
    relations: &mut [i64],
    state: &mut [i64],
    budget: usize,
    res: &mut [i64],
) -> u8
    ensures { record {
      refusal = result;
      row_store = rows.new;
      relation_store = relations.new;
      state_store = state.new;
      result_store = res.new;
    }
        ≡ export_steps budget rows.old relations.old state.old res.old }
{
    exports::wurgalm_run_steps(rows, relations, state, budget, res)
}

#[unsafe(no_mangle)]
pub extern "C" fn wurgalm_run_logged(
    rows: &mut [i64],
    relations: &mut [i64],
    m: usize,
    equations: usize,
    l: i64,
    t: i64,
    count: usize,
    log: &mut [i64],
    res: &mut [i64],
) -> u8
    ensures { record {
      refusal = result;
      row_store = rows.new;
      relation_store = relations.new;
      log_store = log.new;
      result_store = res.new;
    }
        ≡ export_logged (record { m = m; equations = equations; l = l; t = t }) count
        log.old rows.old relations.old res.old }
{
    exports::wurgalm_run_logged(rows, relations, m, equations, l, t, count, log, res)
}

#[unsafe(no_mangle)]
pub extern "C" fn wurgalm_replay(
    rows: &mut [i64],
    relations: &mut [i64],
    m: usize,
    equations: usize,
    l: i64,
    t: i64,
    count: usize,
    steps: usize,
    log: &[i64],
    res: &mut [i64],
) -> u8
    ensures { record { refusal = result; row_store = rows.new; relation_store = relations.new; result_store = res.new }
        ≡ export_replay (record { m = m; equations = equations; l = l; t = t }) count steps
        log.now rows.old relations.old res.old }
{
    exports::wurgalm_replay(rows, relations, m, equations, l, t, count, steps, log, res)
}

#[unsafe(no_mangle)]
pub extern "C" fn wurgalm_solutions(
    rows: &[i64],
    relations: &[i64],
    m: usize,
    equations: usize,
    l: i64,
    t: i64,
    count: usize,
    work_rows: &mut [i64],
    work_relations: &mut [i64],
    work_matrix: &mut [i64],
    list: &mut [i64],
    res: &mut [i64],
) -> u8
    ensures { record {
      refusal = result;
      work = work_of work_rows.new work_relations.new work_matrix.new list.new;
      result_store = res.new;
    }
        ≡ export_solutions (record { m = m; equations = equations; l = l; t = t }) count rows.now relations.now
        (work_of work_rows.old work_relations.old work_matrix.old list.old)
        res.old }
{
    exports::wurgalm_solutions(
        rows,
        relations,
        m,
        equations,
        l,
        t,
        count,
        work_rows,
        work_relations,
        work_matrix,
        list,
        res,
    )
}
