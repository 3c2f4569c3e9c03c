// The numbers of a step: whether they are well formed, and the step that they say.
ghost use Rattle.std.specs.Prelude.{◌≡◌, ◌<◌, T, pos, length, get_or};
ghost use Rattle.log_steps.specs.Logs.{step_length, counted, place_of, combination_right};
ghost use Rattle.replays.specs.Given.{exchange_formed_of, row_formed_of};
ghost use Rattle.replays.specs.Said.{Said, Row};

use log_steps::kinds::Kind;
use log_steps::lengths::{G, H, STEP};
use refusals::Refusal;

// A step that is well formed: its rows, counted from 0, and the integer of a combination, whose multipliers stay where they are.
#[derive(Clone, Copy, Debug, PartialEq, Eq)]
pub(crate) enum Step {
    Exchange(usize, usize),
    Combination(usize, usize, i64),
    Raise(usize),
    Lower(usize),
    Drop(usize),
}

// Is number k at least 1? (SCOPE 13.12)
fn is_counted(x: &[i64], k: usize) -> bool
    requires { k < length x.now }
    ensures { result ≡ counted (get_or x.now k (pos 0)) }
{
    1 <= x[k]
}

// Number k, counted from 0.
fn place_at(x: &[i64], k: usize) -> usize
    requires { (k < length x.now) × T (counted (get_or x.now k (pos 0))) }
    ensures { result ≡ place_of (get_or x.now k (pos 0)) }
{
    integers::magnitude(x[k]) as usize - 1
}

// The step of one row uses no other number (SCOPE 13.12).
fn row_formed(x: &[i64]) -> bool
    requires { length x.now ≡ step_length }
    ensures { result ≡ row_formed_of x.now }
{
    if !is_counted(x, 1) {
        return false;
    }
    polynomials::content::is_zero(&x[2..])
}

// The exchange uses no other number than i and j (SCOPE 13.12).
fn exchange_formed(x: &[i64]) -> bool
    requires { length x.now ≡ step_length }
    ensures { result ≡ exchange_formed_of x.now }
{
    if !is_counted(x, 1) {
        return false;
    }
    if !is_counted(x, 2) {
        return false;
    }
    polynomials::content::is_zero(&x[3..])
}

// The integer of a combination is positive, and the coefficients of g and h are within ±C (SCOPE 13.12).
fn combination_formed(x: &[i64]) -> bool
    requires { length x.now ≡ step_length }
    ensures { result ≡ combination_right x.now }
{
    if !is_counted(x, 1) {
        return false;
    }
    if !is_counted(x, 2) {
        return false;
    }
    if !is_counted(x, 3) {
        return false;
    }
    if !stores::checks::all_small(&x[G..H]) {
        return false;
    }
    stores::checks::all_small(&x[H..STEP])
}

// The row of a step of one row (SCOPE 13.12, 13.23 to 13.25).
fn row_of(x: &[i64]) -> Result<usize, Refusal>
    requires { length x.now ≡ step_length }
    ensures { Row x.now result }
{
    if !row_formed(x) {
        return Err(Refusal::WrongLog);
    }
    Ok(place_at(x, 1))
}

// The step that the numbers say (SCOPE 13.12).
pub(crate) fn step_of(x: &[i64]) -> Result<Step, Refusal>
    requires { length x.now ≡ step_length }
    ensures { Said x.now result }
{
    match Kind::try_from(x[0])? {
        Kind::Exchange => {
            if !exchange_formed(x) {
                return Err(Refusal::WrongLog);
            }
            Ok(Step::Exchange(place_at(x, 1), place_at(x, 2)))
        }
        Kind::Combination => {
            if !combination_formed(x) {
                return Err(Refusal::WrongLog);
            }
            Ok(Step::Combination(place_at(x, 1), place_at(x, 2), x[3]))
        }
        Kind::Raise => Ok(Step::Raise(row_of(x)?)),
        Kind::Lower => Ok(Step::Lower(row_of(x)?)),
        Kind::Drop => Ok(Step::Drop(row_of(x)?)),
    }
}
