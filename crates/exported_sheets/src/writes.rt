// The calls that write a sheet: a system of stores with its column order, and the recurrence of a differential sheet.
ghost use Rattle.std.specs.Prelude.{◌≡◌};
ghost use Rattle.stores.specs.Validity.{the_sizes_of};
ghost use Rattle.exported_sheets.specs.Writes.{export_write};
ghost use Rattle.exported_sheets.specs.Differentials.{export_recurrence};

// Stores that hold nothing are too short: with them the calls tell whether sizes, count and order are right (1) or not (2).
pub fn write_sheet(
    rows: &[i64],
    relations: &[i64],
    sizes: stores::validity::Sizes,
    count: usize,
    order: &[i64],
    bytes: &mut [u8],
    res: &mut [i64],
) -> u8
    ensures { record { refusal = result; byte_store = bytes.new; result_store = res.new }
        ≡ export_write (the_sizes_of sizes) count order.now rows.now relations.now bytes.old
        res.old }
{
    if order.len() < 4 {
        let checked = stores::validity::check_stores(&rows[..0], &relations[..0], sizes, count);
        return export_results::number_in(&checked);
    }
    if !export_results::no_negative(&order[..4]) {
        return 2;
    }
    let columns = export_results::columns(order);
    if res.len() < 1 {
        let none = sheets::write_sheet(
            &rows[..0],
            &relations[..0],
            sizes,
            count,
            columns,
            &mut bytes[..0],
        );
        return export_results::number_in(&none);
    }
    match sheets::write_sheet(rows, relations, sizes, count, columns, bytes) {
        Ok(length) => {
            res[0] = length as i64;
            0
        }
        Err(refusal) => refusal.number(),
    }
}

// The recurrence of a differential sheet written as a sheet. A result store without a number is too short, so as bytes that hold nothing.
pub fn write_recurrence(sheet: &[u8], bytes: &mut [u8], res: &mut [i64]) -> u8
    ensures { record { refusal = result; byte_store = bytes.new; result_store = res.new }
        ≡ export_recurrence sheet.now bytes.old res.old }
{
    if res.len() < 1 {
        let judged = differential::write_recurrence(sheet, &mut bytes[..0]);
        return export_results::number_in(&judged);
    }
    match differential::write_recurrence(sheet, bytes) {
        Ok(length) => {
            res[0] = length as i64;
            0
        }
        Err(refusal) => refusal.number(),
    }
}
