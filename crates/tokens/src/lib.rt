// The numbers of a sheet and of a batch line: one to ten digits, a minus or none in front, no superfluous zero
// (SCOPE 4.2); each is judged, and has its separator (SCOPE 4.33, 4.34, 4.36).
#![tactic(auto)]

ghost use Rattle.std.specs.Prelude.{◌≡◌, ◌+◌, ◌-◌, ◌*◌, ◌^◌, ◌<◌, ◌≤◌, ℕ, ℤ, true, ◌&&◌, length, drop, pos, neg_ℤ, IfOk, if◌then◌else◌, bit_xor, int_le, nat_lt, slice_index};
ghost use Rattle.std.proofs.Math.Seq.{slice};
ghost use Rattle.refusals.specs.Refusals.{refusal_in};
ghost use Rattle.rules.specs.Numbers.{is_separator_of, is_digit_of, starts_right_of, then_read, field, between, judge_small_of};
ghost use Rattle.rules.specs.Sheets.{always};
ghost use Rattle.tokens.specs.Tokens.{DigitsStart, DigitsTo, Stopped, token_answer};
ghost use Rattle.tokens.specs.Straight.{two_digits_of, four_digits_of, eight_digits_of, two_bytes_of, four_bytes_of};
ghost use Rattle.tokens.specs.Straight.{digits_end, digits_from_of, digit_at_of, digits_at_of, long_at_of};
ghost use Rattle.tokens.specs.Words.{four_word_of, eight_word_of, rest_stops, front_count_of, word_value_of, Begins};
ghost use Rattle.tokens.specs.Fields.{NumberAt, FoundIn, Judges, Follows, read_in, closing, read_number_of};

use refusals::Refusal;

fn is_separator(b: u8) -> bool
    ensures { result ≡ is_separator_of b }
{
    b == 32 || b == 10
}

// Where the digits of the token at `at` begin: after a minus, if it has one.
fn after_sign(bytes: &[u8], at: usize) -> usize
    requires { at < length bytes.now }
    ensures { (result ≡ digits_from_of bytes.now at) × (at ≤ result) × (result ≤ at + 1) }
{
    if bytes[at] == 45 { at + 1 } else { at }
}

fn digits_start(bytes: &[u8], at: usize) -> usize
    requires { at ≤ length bytes.now }
    ensures { DigitsStart bytes.now at result }
{
    if at < bytes.len() {
        return after_sign(bytes, at);
    }
    at
}

fn is_digit(b: u8) -> bool
    ensures { result ≡ is_digit_of b }
{
    48 <= b && b <= 57
}

// Where digits end, and their value.
#[derive(Drop)]
struct Digits {
    end: usize,
    value: u64,
}

// The digits from `from` on, at most ten (SCOPE 4.2).
fn digits_from(bytes: &[u8], from: usize) -> Digits
    requires { from ≤ length bytes.now }
    ensures { DigitsTo bytes.now from result.end result.value × Stopped bytes.now from result.end }
{
    let mut value: u64 = 0;
    let last = bytes.len().min(from + 10);
    for end in from..last {
        let b = bytes[end];
        if !is_digit(b) {
            return Digits { end, value };
        }
        value = 10 * value + (b - 48) as u64;
    }
    Digits { end: last, value }
}

// No superfluous zero stands in front, and zero has no minus: a 0 stands alone and without a sign (SCOPE 4.2).
fn starts_right(bytes: &[u8], signed: bool, from: usize, end: usize) -> bool
    requires { (from ≤ end) × (end ≤ length bytes.now) }
    ensures { result ≡ starts_right_of signed (slice from end bytes.now) }
{
    if from == end {
        return true;
    }
    if bytes[from] != 48 {
        return true;
    }
    !signed && from + 1 == end
}

// A number by its sign and its size.
fn signed_value(negative: bool, size: u64) -> i64
    requires { size < 10 ^ 10 }
    ensures { result ≡ (if negative then neg_ℤ (pos size) else pos size) }
{
    let value = size as i64;
    if negative { -value } else { value }
}

// The number that the token at `at` is, if it is one, over bytes that go on after its digits. They begin at `from`; `right` says whether they start right.
fn read_token(bytes: &[u8], at: usize, from: usize, d: Digits, right: bool) -> Option<i64>
    requires digits_start { DigitsStart bytes.now at from × DigitsTo bytes.now from d.end d.value × Stopped bytes.now from d.end }
    requires end_in_bounds { (d.end < length bytes.now) × (right ≡ starts_right_of (nat_lt at from) (slice from d.end bytes.now)) }
    ensures { token_answer result (drop d.end bytes.now) ≡ read_number_of (drop at bytes.now) }
{
    let end = d.end;
    if !is_separator(bytes[end]) {
        return None;
    }
    if from == end {
        return None;
    }
    if !right {
        return None;
    }
    Some(signed_value(at < from, d.value))
}

fn two_digits(bytes: &[u8], at: usize) -> bool
    requires { at + 2 ≤ length bytes.now }
    ensures { result ≡ two_digits_of bytes.now at }
{
    is_digit(bytes[at]) & is_digit(bytes[at + 1])
}

fn four_digits(bytes: &[u8], at: usize) -> bool
    requires { at + 4 ≤ length bytes.now }
    ensures { result ≡ four_digits_of bytes.now at }
{
    two_digits(bytes, at) & two_digits(bytes, at + 2)
}

// Are the eight bytes from `at` on digits? No test waits for another, so that all are made at once.
fn eight_digits(bytes: &[u8], at: usize) -> bool
    requires { at + 8 ≤ length bytes.now }
    ensures { result ≡ eight_digits_of bytes.now at }
{
    four_digits(bytes, at) & four_digits(bytes, at + 4)
}

fn wide(b: u8) -> u64
    ensures { (result ≡ b) × (result ≤ 255) }
{
    b as u64
}

// Bytes as digits, without the 48 that each of them is more.
fn two_bytes(bytes: &[u8], at: usize) -> u64
    requires { at + 2 ≤ length bytes.now }
    ensures { (result ≡ two_bytes_of bytes.now at) × (result ≤ 2805) }
{
    10 * wide(bytes[at]) + wide(bytes[at + 1])
}

fn four_bytes(bytes: &[u8], at: usize) -> u64
    requires { at + 4 ≤ length bytes.now }
    ensures { (result ≡ four_bytes_of bytes.now at) × (result ≤ 283305) }
{
    100 * two_bytes(bytes, at) + two_bytes(bytes, at + 2)
}

// The value of eight digits: 533333328 is 48 in each of eight places.
fn eight_value(bytes: &[u8], from: usize) -> u64
    requires { (from + 8 ≤ length bytes.now) × (eight_digits_of bytes.now from ≡ true) }
    ensures { DigitsTo bytes.now from (from + 8) result }
{
    10000 * four_bytes(bytes, from) + four_bytes(bytes, from + 4) - 533333328
}

// One digit more, if there is one.
fn with_digit(bytes: &[u8], from: usize, d: Digits) -> Digits
    requires { DigitsTo bytes.now from d.end d.value × (d.end < from + 10) × (d.end < length bytes.now) }
    ensures digits_to { DigitsTo bytes.now from result.end result.value }
    ensures end_value { result.end ≡ digits_end bytes.now d.end 1 }
{
    let end = d.end;
    let b = bytes[end];
    if !is_digit(b) {
        return d;
    }
    Digits {
        end: end + 1,
        value: 10 * d.value + wide(b - 48),
    }
}

// A number that was read, and the place after it.
#[derive(Clone, Copy, Debug, PartialEq, Eq)]
pub struct Found {
    pub value: i64,
    pub at: usize,
}

// The bytes of the longest number, with its sign and a separator.
const LONGEST: usize = 12;

// A number of eight to ten digits that does not begin with 0, where the longest has room. A straight way, one without a loop, finds
// nothing where it does not read the number, which then is read in general.
fn long_at(bytes: &[u8], at: usize) -> Option<Found>
    requires { at ≤ length bytes.now }
    ensures { result ≡ long_at_of bytes.now at }
{
    if bytes.len() - at < LONGEST {
        return None;
    }
    let from = after_sign(bytes, at);
    if !eight_digits(bytes, from) {
        return None;
    }
    if bytes[from] == 48 {
        return None;
    }
    let eight = Digits {
        end: from + 8,
        value: eight_value(bytes, from),
    };
    let nine = with_digit(bytes, from, eight);
    let d = with_digit(bytes, from, nine);
    let end = d.end;
    if !is_separator(bytes[end]) {
        return None;
    }
    Some(Found {
        value: signed_value(at < from, d.value),
        at: end,
    })
}

// The number at `at`, read in general. Bytes that end before the separator are 4 where they could begin a number, 3
// where not (SCOPE 4.32); a token that is no number is 3 (SCOPE 4.33, 8.3).
fn token_at(bytes: &[u8], at: usize) -> Result<Found, Refusal>
    requires { at ≤ length bytes.now }
    ensures { NumberAt bytes.now at result }
{
    let from = digits_start(bytes, at);
    let d = digits_from(bytes, from);
    let end = d.end;
    let right = starts_right(bytes, at < from, from, end);
    if end == bytes.len() {
        if right {
            return Err(Refusal::WrongEnd);
        }
        return Err(Refusal::Malformed);
    }
    let Some(value) = read_token(bytes, at, from, d, right) else {
        return Err(Refusal::Malformed);
    };
    Ok(Found { value, at: end })
}

// The number at `at`, not yet judged; the place after it is that of its separator.
pub fn number_at(bytes: &[u8], at: usize) -> Result<Found, Refusal>
    requires { at ≤ length bytes.now }
    ensures { NumberAt bytes.now at result }
{
    match long_at(bytes, at) {
        Some(n) => Ok(n),
        None => token_at(bytes, at),
    }
}

// A number of one digit and the separator behind it: most numbers of a sheet are such. A 0 has no sign.
pub fn digit_at(bytes: &[u8], at: usize, separator: u8) -> Option<Found>
    requires { at ≤ length bytes.now }
    ensures { result ≡ digit_at_of bytes.now at separator }
{
    if bytes.len() - at < 3 {
        return None;
    }
    let from = after_sign(bytes, at);
    let end = from + 1;
    let after = bytes[end];
    if after != separator {
        return None;
    }
    if !is_separator(after) {
        return None;
    }
    let b = bytes[from];
    if !is_digit(b) {
        return None;
    }
    let size = wide(b - 48);
    if (size as usize) < from - at {
        return None;
    }
    Some(Found {
        value: signed_value(at < from, size),
        at: end + 1,
    })
}

// Four bytes as one number, the first of them lowest.
fn four_word(bytes: &[u8], at: usize) -> u64
    requires { at + 4 ≤ length bytes.now }
    ensures { (result ≡ four_word_of bytes.now at) × (result < 4294967296) }
{
    let low = wide(bytes[at]) + 256 * wide(bytes[at + 1]);
    low + 65536 * wide(bytes[at + 2]) + 16777216 * wide(bytes[at + 3])
}

fn eight_word(bytes: &[u8], at: usize) -> u64
    requires { at + 8 ≤ length bytes.now }
    ensures { result ≡ eight_word_of bytes.now at }
{
    four_word(bytes, at) + 4294967296 * four_word(bytes, at + 4)
}

// Of eight bytes, each of which was changed by 48 so that a digit became its value, and the first of which is a sign or a digit: 0 at each
// before the first that was neither, and 128 at that one. What is carried out of it is of no use.
fn stops(x: u64) -> u64
    ensures { result ≡ rest_stops x }
{
    (std::num::wrapping_add_u64(x, 0x7676767676767676) | x) & 0x8080808080808000
}

// How many of the eight stand before that one.
fn front_count(s: u64) -> usize
    ensures { result ≡ front_count_of s }
{
    (u64::trailing_zeros(s) >> 3) as usize
}

// The value of eight digits, the first of them lowest: by pairs, by fours, and then whole.
fn word_value(d: u64) -> u64
    requires { d < 720575940379279360 }
    ensures { result ≡ word_value_of d }
{
    let a = (10 * d + d / 256) & 0x00ff00ff00ff00ff;
    let b = (100 * a + a / 65536) & 0x0000ffff0000ffff;
    10000 * (b % 4294967296) + b / 4294967296
}

// A value with one digit more, if there is one: no branch has to be foretold.
fn one_more(value: u64, digit: u8, more: bool) -> u64
    requires { value < 10 ^ 10 }
    ensures { result ≡ (if more then 10 * value + digit else value) }
{
    if more {
        10 * value + wide(digit)
    } else {
        value
    }
}

// The digits from `from` on, at most ten, of which those among the eight bytes from `at` on were counted with the sign. A minus is 29
// where it was changed as a digit is, and counts as a 0 in front.
fn front_digits(bytes: &[u8], at: usize, from: usize, x: u64, s: u64, n: usize) -> Digits
    requires at_in_bounds { (at + 10 ≤ length bytes.now) × Begins bytes.now at from × (is_digit_of (slice_index bytes.now from) ≡ true) }
    requires x_value { (x ≡ bit_xor (eight_word_of bytes.now at) 0x3030303030303030) × (s ≡ rest_stops x) × (n ≡ front_count_of s) }
    ensures digits_to { DigitsTo bytes.now from result.end result.value }
    ensures end_value { result.end ≡ digits_end bytes.now from (at + 10 - from) }
{
    let value = word_value((x - 29 * (from - at) as u64) << (64 - 8 * n));
    let ninth = bytes[at + 8] ^ 48;
    let tenth = bytes[at + 9] ^ 48;
    let more = (s == 0) & (ninth < 10);
    let last = more & (tenth < 10);
    Digits {
        end: at + n + more as usize + last as usize,
        value: one_more(one_more(value, ninth, more), tenth, last),
    }
}

// A number of at most ten bytes that does not begin with 0, and the separator behind it, where the longest has room.
pub fn digits_at(bytes: &[u8], at: usize, separator: u8) -> Option<Found>
    requires { at ≤ length bytes.now }
    ensures { result ≡ digits_at_of bytes.now at separator }
{
    if bytes.len() - at < LONGEST {
        return None;
    }
    if !is_separator(separator) {
        return None;
    }
    let from = after_sign(bytes, at);
    let first = bytes[from];
    if first == 48 {
        return None;
    }
    if !is_digit(first) {
        return None;
    }
    let x = eight_word(bytes, at) ^ 0x3030303030303030;
    let s = stops(x);
    let n = front_count(s);
    let d = front_digits(bytes, at, from, x, s, n);
    let end = d.end;
    if bytes[end] != separator {
        return None;
    }
    Some(Found {
        value: signed_value(at < from, d.value),
        at: end + 1,
    })
}

// A number that was judged, with its separator, a wrong one of which is 3 (SCOPE 4.36). The number's own refusal comes first, then its
// judgement.
pub fn separated(
    bytes: &[u8],
    n: Result<Found, Refusal>,
    judgement: Result<(), Refusal>,
    separator: u8,
) -> Result<Found, Refusal>
    requires { IfOk n (λ f. f.at < length bytes.now) }
    ensures { FoundIn bytes.now result
        (then_read (read_in bytes.now (λ f. f.value) (λ f. f.at) n) (closing (refusal_in judgement) separator)) }
{
    let found = n?;
    judgement?;
    let at = found.at;
    if bytes[at] != separator {
        return Err(Refusal::Malformed);
    }
    Ok(Found {
        value: found.value,
        at: at + 1,
    })
}

// A number, then its judgement, and then the separator that its value asks for.
pub fn any_field_at<J: Fn(i64) -> Result<(), Refusal>, S: Fn(i64) -> u8>(
    bytes: &[u8],
    at: usize,
    judge: J,
    separator: S,
) -> Result<Found, Refusal>
    requires at_in_bounds { at ≤ length bytes.now }
    requires callable { J.IsAlwaysCallable judge × S.IsAlwaysCallable separator }
    ensures { (j follow : ℤ → ℕ) → Judges (J.post judge) j → Follows (S.post separator) follow
        → FoundIn bytes.now result (field j follow (drop at bytes.now)) }
{
    let n = number_at(bytes, at)?;
    separated(bytes, Ok(n), judge(n.value), separator(n.value))
}

// The same with one separator: most numbers are of one digit, which are read straight.
pub fn field_at<J: Fn(i64) -> Result<(), Refusal>>(
    bytes: &[u8],
    at: usize,
    separator: u8,
    judge: J,
) -> Result<Found, Refusal>
    requires at_in_bounds { at ≤ length bytes.now }
    requires callable { J.IsAlwaysCallable judge }
    ensures { (j : ℤ → ℕ) → Judges (J.post judge) j → FoundIn bytes.now result (field j (always separator) (drop at bytes.now)) }
{
    let Some(d) = digit_at(bytes, at, separator) else {
        return any_field_at(bytes, at, judge, |_| separator);
    };
    judge(d.value)?;
    Ok(d)
}

pub fn is_between(low: i64, high: i64, value: i64) -> bool
    ensures { result ≡ (int_le low value && int_le value high) }
{
    low <= value && value <= high
}

// A size, block, column or count out of its range is 2 (SCOPE 4.34, 6.2).
pub fn judge_between(low: i64, high: i64, value: i64) -> Result<(), Refusal>
    ensures { refusal_in result ≡ between low high value }
{
    if is_between(low, high, value) {
        Ok(())
    } else {
        Err(Refusal::OutOfRange)
    }
}

// A coefficient or n0 past ±C is 5 (SCOPE 4.34, 6.5).
pub fn judge_small(value: i64) -> Result<(), Refusal>
    ensures { refusal_in result ≡ judge_small_of value }
{
    if integers::within_bound(value) {
        Ok(())
    } else {
        Err(Refusal::PastBound)
    }
}

pub fn number_between(
    bytes: &[u8],
    at: usize,
    low: i64,
    high: i64,
    separator: u8,
) -> Result<Found, Refusal>
    requires { at ≤ length bytes.now }
    ensures { FoundIn bytes.now result (field (between low high) (always separator) (drop at bytes.now)) }
{
    field_at(
        bytes,
        at,
        separator,
        |value| judge_between(low, high, value),
    )
}

// A coefficient that is not the last, or n0.
pub fn small_at(bytes: &[u8], at: usize) -> Result<Found, Refusal>
    requires { at ≤ length bytes.now }
    ensures { FoundIn bytes.now result (field judge_small_of (always 32) (drop at bytes.now)) }
{
    field_at(bytes, at, 32, judge_small)
}
