// Counts, and the separators of what is counted.
ghost use Rattle.std.specs.Prelude.{◌≡◌, ◌≤◌, length, drop, pos};
ghost use Rattle.rules.specs.Numbers.{field, between};
ghost use Rattle.rules.specs.Sheets.{after_count_of};
ghost use Rattle.tokens.specs.Fields.{FoundIn};
ghost use Rattle.rules.specs.Sheets as Sheets;

use refusals::Refusal;
use tokens::Found;

// The separator after a count: the line ends if nothing is counted (SCOPE 4.15, 4.21).
pub fn after_count(value: i64) -> u8
    ensures { result ≡ after_count_of value }
{
    if value == 0 { 10 } else { 32 }
}

// The separator after one of several things on a line of which `left` are still to come; `last` stands after the last (SCOPE 4.36).
pub(crate) fn mark_after(last: u8, left: usize) -> u8
    ensures { result ≡ Sheets.parting last left }
{
    if left == 0 { last } else { 32 }
}

// The same where the line ends after the last.
pub fn parting(left: usize) -> u8
    ensures { result ≡ Sheets.parting 10 left }
{
    mark_after(10, left)
}

// A count of 0 to `most` things, read in general.
fn any_count_at(bytes: &[u8], at: usize, most: i64) -> Result<Found, Refusal>
    requires { at ≤ length bytes.now }
    ensures { FoundIn bytes.now result (field (between (pos 0) most) after_count_of (drop at bytes.now)) }
{
    tokens::any_field_at(
        bytes,
        at,
        |value| tokens::judge_between(0, most, value),
        after_count,
    )
}

// A count of 0 to `most` things.
pub fn count_at(bytes: &[u8], at: usize, most: i64) -> Result<Found, Refusal>
    requires { at ≤ length bytes.now }
    ensures { FoundIn bytes.now result (field (between (pos 0) most) after_count_of (drop at bytes.now)) }
{
    let Some(d) = tokens::digit_at(bytes, at, 32) else {
        return any_count_at(bytes, at, most);
    };
    if after_count(d.value) != 32 {
        return any_count_at(bytes, at, most);
    }
    tokens::judge_between(0, most, d.value)?;
    Ok(d)
}
