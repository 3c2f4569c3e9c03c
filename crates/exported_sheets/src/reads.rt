// The calls that read a sheet or a differential sheet: what it says besides its rows and relations, as numbers of a lent store.
ghost use Rattle.std.specs.Prelude.{◌≡◌, Ok};
ghost use Rattle.reading.specs.WholeSheet.{result_of};
ghost use Rattle.exported_sheets.specs.Reads.{read_numbers_of, SmallRead, export_read};
ghost use Rattle.exported_sheets.specs.Differentials.{export_differential};

use sheets::Sheet;

fn read_numbers(sheet: Sheet) -> [i64; 9]
    requires { SmallRead (result_of (Ok sheet)) }
    ensures { result ≡ read_numbers_of (result_of (Ok sheet)) }
{
    let sizes = sheet.sizes;
    let order = sheet.order;
    [
        sizes.m as i64,
        sizes.l,
        sizes.t,
        sheet.relations as i64,
        order[0] as i64,
        order[1] as i64,
        order[2] as i64,
        order[3] as i64,
        sizes.equations as i64,
    ]
}

// A result store that is too short is refused with the other lengths, so as stores that hold nothing (SCOPE 3.53).
pub fn read_sheet(bytes: &[u8], rows: &mut [i64], relations: &mut [i64], res: &mut [i64]) -> u8
    ensures { record { refusal = result; row_store = rows.new; relation_store = relations.new; result_store = res.new }
        ≡ export_read bytes.now rows.old relations.old res.old }
{
    if res.len() < 9 {
        let judged = sheets::read_sheet(bytes, &mut rows[..0], &mut relations[..0]);
        return export_results::number_in(&judged);
    }
    match sheets::read_sheet(bytes, rows, relations) {
        Ok(sheet) => {
            let numbers = read_numbers(sheet);
            export_results::put(res, &numbers[..]);
            0
        }
        Err(refusal) => refusal.number(),
    }
}

// The recurrence of a differential sheet, in the same way.
pub fn read_differential(
    bytes: &[u8],
    rows: &mut [i64],
    relations: &mut [i64],
    res: &mut [i64],
) -> u8
    ensures { record { refusal = result; row_store = rows.new; relation_store = relations.new; result_store = res.new }
        ≡ export_differential bytes.now rows.old relations.old res.old }
{
    if res.len() < 9 {
        let judged = differential::read_differential(bytes, &mut rows[..0], &mut relations[..0]);
        return export_results::number_in(&judged);
    }
    match differential::read_differential(bytes, rows, relations) {
        Ok(sheet) => {
            let numbers = read_numbers(sheet);
            export_results::put(res, &numbers[..]);
            0
        }
        Err(refusal) => refusal.number(),
    }
}
