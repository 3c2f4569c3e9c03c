// The entry points for programs in C and other languages, by plain names: the public calls of `elimination`, `sheets`,
// `differential`, `records`, `solutions`, `steps` and `logs`, and the whole batch of `batches`, the fields of whose results are numbers
// of a lent store. The crates `exported_*` have what each does, this one the sizes as single arguments. No `requires`, and contracts
// that give the refusal and every lent store by equations (SCOPE 3.51, 9.1, 9.2). C links them from the static library `exports_c`.
#![tactic(auto)]

ghost use Rattle.std.specs.Prelude.{◌≡◌};
ghost use Rattle.rules.specs.Elimination.{leading, trailing};
ghost use Rattle.solutions.specs.AnswerStores.{work_of};
ghost use Rattle.exported_runs.specs.Runs.{export_run};
ghost use Rattle.exported_sheets.specs.Writes.{export_write};
ghost use Rattle.exported_sheets.specs.Reads.{export_read};
ghost use Rattle.exports.specs.Batches.{export_batch};
ghost use Rattle.exported_sheets.specs.Differentials.{export_differential, export_recurrence};
ghost use Rattle.exported_records.specs.RecordNumbers.{export_record};
ghost use Rattle.exported_steps.specs.StateNumbers.{export_prepare};
ghost use Rattle.exported_steps.specs.StepNumbers.{export_steps};
ghost use Rattle.exported_logs.specs.LogNumbers.{export_replay, export_logged};
ghost use Rattle.exported_solutions.specs.SolutionNumbers.{export_solutions};

use sides::Side;

// A run on the leading side. `result` gets ten numbers: the relation count, the shifts, c(1) to c(4), 1 or 0 for a
// root, the root, the rank, how often the root occurs (SCOPE 3.52).
pub fn wurgalm_run_leading(
    rows: &mut [i64],
    relations: &mut [i64],
    m: usize,
    equations: usize,
    l: i64,
    t: i64,
    count: usize,
    res: &mut [i64],
) -> u8
    ensures { record { refusal = result; row_store = rows.new; relation_store = relations.new; result_store = res.new }
        ≡ export_run leading (record { m = m; equations = equations; l = l; t = t }) count rows.old relations.old res.old }
{
    exported_runs::exported(
        rows,
        relations,
        stores::validity::Sizes { m, equations, l, t },
        count,
        res,
        Side::Leading,
    )
}

// The same on the trailing side.
pub fn wurgalm_run_trailing(
    rows: &mut [i64],
    relations: &mut [i64],
    m: usize,
    equations: usize,
    l: i64,
    t: i64,
    count: usize,
    res: &mut [i64],
) -> u8
    ensures { record { refusal = result; row_store = rows.new; relation_store = relations.new; result_store = res.new }
        ≡ export_run trailing (record { m = m; equations = equations; l = l; t = t }) count rows.old relations.old res.old }
{
    exported_runs::exported(
        rows,
        relations,
        stores::validity::Sizes { m, equations, l, t },
        count,
        res,
        Side::Trailing,
    )
}

// A sheet read into the stores. `result` gets nine numbers: m, l, t, the relation count, c(1) to c(4), the number
// of equations (SCOPE 3.52).
pub fn wurgalm_read_sheet(
    bytes: &[u8],
    rows: &mut [i64],
    relations: &mut [i64],
    res: &mut [i64],
) -> u8
    ensures { record { refusal = result; row_store = rows.new; relation_store = relations.new; result_store = res.new }
        ≡ export_read bytes.now rows.old relations.old res.old }
{
    exported_sheets::reads::read_sheet(bytes, rows, relations, res)
}

// The system of the stores written as a sheet. `order` holds four numbers: different columns of 1..m and zeros past them
// (SCOPE 3.55, 4.53). `result` gets one number: the length of the sheet (SCOPE 3.52).
pub fn wurgalm_write_sheet(
    rows: &[i64],
    relations: &[i64],
    m: usize,
    equations: usize,
    l: i64,
    t: i64,
    count: usize,
    order: &[i64],
    bytes: &mut [u8],
    res: &mut [i64],
) -> u8
    ensures { record { refusal = result; byte_store = bytes.new; result_store = res.new }
        ≡ export_write (record { m = m; equations = equations; l = l; t = t }) count order.now rows.now relations.now
        bytes.old res.old }
{
    exported_sheets::writes::write_sheet(
        rows,
        relations,
        stores::validity::Sizes { m, equations, l, t },
        count,
        order,
        bytes,
        res,
    )
}

// A whole batch. `result` gets one number: the length of the output. A broken batch is accepted, and its output ends in
// the line `3`. An output too short is found in the course of the work: all of it is zero (SCOPE 5.32), and so is the
// number of the result.
pub fn wurgalm_batch(input: &[u8], output: &mut [u8], res: &mut [i64]) -> u8
    ensures { record { refusal = result; byte_store = output.new; result_store = res.new }
        ≡ export_batch input.now output.old res.old }
{
    if res.len() < 1 {
        return 1;
    }
    let worked = batches::output(input, output);
    res[0] = worked.length as i64;
    worked.refusal
}

// The recurrence of a differential sheet read into the stores. `result` gets nine numbers, as for a sheet (SCOPE 3.52).
pub fn wurgalm_read_differential(
    bytes: &[u8],
    rows: &mut [i64],
    relations: &mut [i64],
    res: &mut [i64],
) -> u8
    ensures { record { refusal = result; row_store = rows.new; relation_store = relations.new; result_store = res.new }
        ≡ export_differential bytes.now rows.old relations.old res.old }
{
    exported_sheets::reads::read_differential(bytes, rows, relations, res)
}

// The recurrence of a differential sheet written as a sheet. `result` gets one number: its length (SCOPE 3.52).
pub fn wurgalm_write_recurrence(sheet: &[u8], bytes: &mut [u8], res: &mut [i64]) -> u8
    ensures { record { refusal = result; byte_store = bytes.new; result_store = res.new }
        ≡ export_recurrence sheet.now bytes.old res.old }
{
    exported_sheets::writes::write_recurrence(sheet, bytes, res)
}

// Does the system explain recorded vectors? There are `vectors` vectors of m numbers each, that of index `first` first. `result` gets
// four numbers: 0 fits, 1 equation, 2 relation; the number tested, or which failed, from 1; its index and its sum, both 0 where all
// fit (SCOPE 3.52, 12.24).
pub fn wurgalm_check_record(
    rows: &[i64],
    relations: &[i64],
    m: usize,
    equations: usize,
    l: i64,
    t: i64,
    count: usize,
    first: i64,
    vectors: usize,
    values: &[i64],
    res: &mut [i64],
) -> u8
    ensures { record { refusal = result; result_store = res.new }
        ≡ export_record (record { m = m; equations = equations; l = l; t = t }) count first vectors
        rows.now relations.now values.now res.old }
{
    exported_records::exported(
        rows,
        relations,
        stores::validity::Sizes { m, equations, l, t },
        count,
        first,
        vectors,
        values,
        res,
    )
}

// The state before the first step of a run on the leading side. `state` gets eleven numbers: m, the equations, l, t, the relation count,
// the settled rows, c(1) to c(4), the shifts (SCOPE 11.12, 11.42).
pub fn wurgalm_prepare(
    rows: &[i64],
    relations: &[i64],
    m: usize,
    equations: usize,
    l: i64,
    t: i64,
    count: usize,
    state: &mut [i64],
) -> u8
    ensures { record { refusal = result; state_store = state.new }
        ≡ export_prepare (record { m = m; equations = equations; l = l; t = t }) count
        rows.now relations.now state.old }
{
    exported_steps::exported_prepare(
        rows,
        relations,
        stores::validity::Sizes { m, equations, l, t },
        count,
        state,
    )
}

// At most `budget` steps of the run that `state` says. `result` gets twelve numbers: the steps, 1 or 0 for a finished run, and behind
// them the ten of a run if it is finished, else zeros (SCOPE 11.44).
pub fn wurgalm_run_steps(
    rows: &mut [i64],
    relations: &mut [i64],
    state: &mut [i64],
    budget: usize,
    res: &mut [i64],
) -> u8
    ensures { record {
      refusal = result;
      row_store = rows.new;
      relation_store = relations.new;
      state_store = state.new;
      result_store = res.new;
    }
        ≡ export_steps budget rows.old relations.old state.old res.old }
{
    exported_steps::exported_steps(rows, relations, state, budget, res)
}

// A run on the leading side with its log. `log` gets the steps and behind them the columns; `result` gets eleven numbers: the ten of a
// run and the steps of the log (SCOPE 13.52, 13.55).
pub fn wurgalm_run_logged(
    rows: &mut [i64],
    relations: &mut [i64],
    m: usize,
    equations: usize,
    l: i64,
    t: i64,
    count: usize,
    log: &mut [i64],
    res: &mut [i64],
) -> u8
    ensures { record {
      refusal = result;
      row_store = rows.new;
      relation_store = relations.new;
      log_store = log.new;
      result_store = res.new;
    }
        ≡ export_logged (record { m = m; equations = equations; l = l; t = t }) count
        log.old rows.old relations.old res.old }
{
    exported_logs::exported_run(
        rows,
        relations,
        stores::validity::Sizes { m, equations, l, t },
        count,
        log,
        res,
    )
}

// The replay of a log of so many steps, from wherever it comes. `result` gets the ten numbers of a run, whose shifts are the steps up
// (SCOPE 13.4, 13.43).
pub fn wurgalm_replay(
    rows: &mut [i64],
    relations: &mut [i64],
    m: usize,
    equations: usize,
    l: i64,
    t: i64,
    count: usize,
    steps: usize,
    log: &[i64],
    res: &mut [i64],
) -> u8
    ensures { record { refusal = result; row_store = rows.new; relation_store = relations.new; result_store = res.new }
        ≡ export_replay (record { m = m; equations = equations; l = l; t = t }) count steps
        log.now rows.old relations.old res.old }
{
    exported_logs::exported_replay(
        rows,
        relations,
        stores::validity::Sizes { m, equations, l, t },
        count,
        steps,
        log,
        res,
    )
}

// Which sequences satisfy the system and are zero outside the indices 0 to N? `list` gets them, one in each 64 numbers; the three stores
// before it are lent for the work. `result` gets three numbers: 1 or 0 for whether there is an N from 0 on, that N, the number of
// sequences (SCOPE 3.52, 14.63, 14.64).
pub fn wurgalm_solutions(
    rows: &[i64],
    relations: &[i64],
    m: usize,
    equations: usize,
    l: i64,
    t: i64,
    count: usize,
    work_rows: &mut [i64],
    work_relations: &mut [i64],
    work_matrix: &mut [i64],
    list: &mut [i64],
    res: &mut [i64],
) -> u8
    ensures { record {
      refusal = result;
      work = work_of work_rows.new work_relations.new work_matrix.new list.new;
      result_store = res.new;
    }
        ≡ export_solutions (record { m = m; equations = equations; l = l; t = t }) count rows.now relations.now
        (work_of work_rows.old work_relations.old work_matrix.old list.old)
        res.old }
{
    exported_solutions::exported(
        rows,
        relations,
        stores::validity::Sizes { m, equations, l, t },
        count,
        work_rows,
        work_relations,
        work_matrix,
        list,
        res,
    )
}
