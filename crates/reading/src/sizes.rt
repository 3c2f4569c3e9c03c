// The sizes: the line of 3, m, l and t, and the line with the number of equations (SCOPE 4.12, 4.13).
ghost use Rattle.std.specs.Prelude.{◌≡◌, ◌≤◌, length, drop, nat_abs};
ghost use Rattle.refusals.specs.Refusals.{refusal_in};
ghost use Rattle.rules.specs.Numbers.{field};
ghost use Rattle.rules.specs.Sheets.{read_sizes, judge_lowest_of, always};
ghost use Rattle.tokens.specs.Fields.{FoundIn, Reads};
ghost use Rattle.stores.specs.Validity.{the_sizes_of};
ghost use Rattle.reading.specs.WholeSheet.{read_unknowns, read_blocks};

use refusals::Refusal;
use tokens::Found;

// t lies between -64 and l, and D = l - t is at most 4 (SCOPE 1.2); otherwise it is 2 (SCOPE 4.34).
fn judge_lowest(l: i64, t: i64) -> Result<(), Refusal>
    requires { nat_abs l ≤ 64 }
    ensures { refusal_in result ≡ judge_lowest_of l t }
{
    if tokens::is_between(-64, l, t) {
        if l - t <= 4 {
            return Ok(());
        }
    }
    Err(Refusal::OutOfRange)
}

fn lowest_at(bytes: &[u8], at: usize, l: i64) -> Result<Found, Refusal>
    requires { (at ≤ length bytes.now) × (nat_abs l ≤ 64) }
    ensures { FoundIn bytes.now result (field (judge_lowest_of l) (always 10) (drop at bytes.now)) }
{
    tokens::field_at(bytes, at, 10, |t| judge_lowest(l, t))
}

// The count that a sheet begins with, 3, and the number of unknowns (SCOPE 4.12).
pub fn unknowns_at(bytes: &[u8], at: usize) -> Result<Found, Refusal>
    requires { at ≤ length bytes.now }
    ensures { FoundIn bytes.now result (read_unknowns (drop at bytes.now)) }
{
    let k = tokens::number_between(bytes, at, 3, 3, 32)?;
    tokens::number_between(bytes, k.at, 1, 4, 32)
}

// The highest and the lowest block, and the place after them.
#[derive(Clone, Copy)]
struct BlocksRead {
    at: usize,
    l: i64,
    t: i64,
}

fn blocks_at(bytes: &[u8], at: usize) -> Result<BlocksRead, Refusal>
    requires { at ≤ length bytes.now }
    ensures { Reads bytes.now (λ b. (b.l, b.t)) (λ b. b.at) result (read_blocks (drop at bytes.now)) }
{
    let l = tokens::number_between(bytes, at, -64, 64, 32)?;
    let t = lowest_at(bytes, l.at, l.value)?;
    Ok(BlocksRead {
        at: t.at,
        l: l.value,
        t: t.value,
    })
}

// The sizes of a sheet, and the place after them.
#[derive(Clone, Copy)]
pub(crate) struct SizesRead {
    pub at: usize,
    pub sizes: stores::validity::Sizes,
}

// The first two lines of a sheet: 3, m, l, t, and the number of equations, 0 to 6 (SCOPE 4.12, 4.13).
pub(crate) fn sizes_at(bytes: &[u8], at: usize) -> Result<SizesRead, Refusal>
    requires { at ≤ length bytes.now }
    ensures { Reads bytes.now (λ z. the_sizes_of z.sizes) (λ z. z.at) result (read_sizes (drop at bytes.now)) }
{
    let m = unknowns_at(bytes, at)?;
    let b = blocks_at(bytes, m.at)?;
    let k = tokens::number_between(bytes, b.at, 0, 6, 10)?;
    Ok(SizesRead {
        at: k.at,
        sizes: stores::validity::Sizes {
            m: m.value as usize,
            equations: k.value as usize,
            l: b.l,
            t: b.t,
        },
    })
}
