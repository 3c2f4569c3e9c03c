// The writing of numbers. Each writing function stores its bytes from a place on, as far as the store goes, counts them all and gives the
// next place: called on an empty part of the store it only counts. No public entry points: callers know that places stay below 2^64 and
// numbers within C, and the contracts give the bytes and the place by equations.
#![tactic(auto)]

ghost use Rattle.std.specs.Prelude.{◌≡◌, [], ◌∷◌, map, ℕ, ◌+◌, ◌-◌, ◌*◌, ◌^◌, ◌≤◌, ◌<◌, pos, nat_abs, T, length, set};
ghost use Rattle.std.proofs.lemmas.List.Edits.{sets};
ghost use Rattle.lists.specs.Tests.{every};
ghost use Rattle.rules.specs.Limits.{bound, small};
ghost use Rattle.rules.specs.Numbers.{decimal, line, space, minus};
ghost use Rattle.number_texts.specs.Runs.{Put};
ghost use Rattle.number_texts.specs.Texts.{digits_of, spaced};
ghost use Rattle.number_texts.specs.DigitPairs.{pair_of, four_of, eight_of, Ends, Begins};
ghost use Rattle.number_texts.specs.TextBytes.{number_bytes, count_bytes, number_room};

// The bytes of a space and the longest number within C, and of a space and the longest count, as in `specs/TextBytes.antt`.
pub const NUMBER_BYTES: usize = 11;

pub const COUNT_BYTES: usize = 21;

pub fn put_byte(bytes: &mut [u8], at: usize, b: u8) -> usize
    requires { at + 1 < 2 ^ 64 }
    ensures { Put bytes.old at (b ∷ []) 1 bytes.new result }
{
    let next = at + 1;
    if at < bytes.len() {
        bytes[at] = b;
    }
    next
}

// The number of digits of a number within C, by comparisons alone.
fn few_digits(n: u64) -> usize
    requires { n < 1000000000 }
    ensures { result ≡ length (digits_of n) }
{
    if n < 100 {
        return if n < 10 { 1 } else { 2 };
    }
    if n < 10000 {
        return if n < 1000 { 3 } else { 4 };
    }
    if n < 1000000 {
        return if n < 100000 { 5 } else { 6 };
    }
    if n < 10000000 {
        return 7;
    }
    if n < 100000000 { 8 } else { 9 }
}

fn digit_count(n: u64) -> usize
    ensures { result ≡ length (digits_of n) }
{
    let mut count = 0;
    let mut rest = n;
    // Kept as a loop by value: it divides until the number is within C.
    while 1000000000 <= rest {
        rest = rest / 10;
        count += 1;
    }
    count + few_digits(rest)
}

// The digits of a number, from the last back.
fn put_digits_back(bytes: &mut [u8], at: usize, n: u64, end: usize)
    requires { end ≡ at + length (digits_of n) }
    ensures { bytes.new ≡ sets bytes.old at (digits_of n) }
{
    let mut i = end;
    let mut rest = n;
    // Kept as a loop by value: it divides until one digit is left.
    while 10 <= rest {
        i -= 1;
        put_byte(bytes, i, 48 + (rest % 10) as u8);
        rest = rest / 10;
    }
    put_byte(bytes, at, 48 + rest as u8);
}

// Most numbers of a sheet have one digit. Past the store's end digits are only counted.
pub fn put_digits(bytes: &mut [u8], at: usize, n: u64) -> usize
    requires { at + 20 < 2 ^ 64 }
    ensures { Put bytes.old at (digits_of n) 20 bytes.new result }
{
    if n < 10 {
        return put_byte(bytes, at, 48 + n as u8);
    }
    let end = at + digit_count(n);
    if at < bytes.len() {
        put_digits_back(bytes, at, n, end);
    }
    end
}

pub fn put_number(bytes: &mut [u8], at: usize, a: i64) -> usize
    requires { T (small a) × (at + 21 < 2 ^ 64) }
    ensures { Put bytes.old at (decimal a) 10 bytes.new result }
{
    let size = integers::magnitude(a);
    if a < 0 {
        let next = put_byte(bytes, at, 45);
        put_digits(bytes, next, size)
    } else {
        put_digits(bytes, at, size)
    }
}

// The two digits of a number below 100. For these 103 / 1024 does for a tenth.
fn put_pair(bytes: &mut [u8], at: usize, n: u64)
    requires { (n < 100) × (at + 2 ≤ length bytes.old) }
    ensures { bytes.new ≡ sets bytes.old at (pair_of n) }
{
    let tens = n * 103 / 1024;
    let next = at + 1;
    bytes[at] = 48 + tens as u8;
    bytes[next] = 48 + (n - 10 * tens) as u8;
}

// The digits of a number by pairs, from the last back. Where their number is odd, there is a zero before them.
fn put_pairs_back(bytes: &mut [u8], end: usize, n: u64)
    requires { (length (digits_of n) < end) × (end ≤ length bytes.old) }
    ensures { (at : ℕ) → Ends bytes.old at end n bytes.new }
{
    let mut i = end;
    let mut rest = n;
    // Kept as a loop by value: it divides until one pair is left.
    while 100 <= rest {
        i -= 2;
        put_pair(bytes, i, rest % 100);
        rest = rest / 100;
    }
    put_pair(bytes, i - 2, rest);
}

fn put_four(bytes: &mut [u8], at: usize, n: u64)
    requires { (n < 10000) × (at + 4 ≤ length bytes.old) }
    ensures { bytes.new ≡ sets bytes.old at (four_of n) }
{
    put_pair(bytes, at, n / 100);
    put_pair(bytes, at + 2, n % 100);
}

fn put_eight(bytes: &mut [u8], at: usize, n: u64)
    requires { (n < 100000000) × (at + 8 ≤ length bytes.old) }
    ensures { bytes.new ≡ sets bytes.old at (eight_of n) }
{
    put_four(bytes, at, n / 10000);
    put_four(bytes, at + 4, n % 10000);
}

// Seven to nine digits. How many there are is hard to foretell, so eight are stored in any case, and a ninth before them. Zeros before the
// first digit stand where the minus and the space come.
fn put_nine(bytes: &mut [u8], at: usize, end: usize, n: u64)
    requires { (1000000 ≤ n) × (n < 1000000000) × (at + length (digits_of n) < end) × (end ≤ length bytes.old) }
    ensures { Ends bytes.old at end n bytes.new }
{
    let mut first = at;
    if at + 9 <= end {
        first = end - 9;
    }
    bytes[first] = 48 + (n / 100000000) as u8;
    put_eight(bytes, end - 8, n % 100000000);
}

// The digits of a number within C up to a place, with room for a byte before them.
fn put_before(bytes: &mut [u8], at: usize, end: usize, n: u64)
    requires { (n < 1000000000) × (at + length (digits_of n) < end) × (end ≤ length bytes.old) }
    ensures { Ends bytes.old at end n bytes.new }
{
    if n < 1000000 {
        put_pairs_back(bytes, end, n);
    } else {
        put_nine(bytes, at, end, n);
    }
}

// One digit or two from a place on. Two are stored in any case: a zero before a single digit stands where something else comes.
fn put_short(bytes: &mut [u8], start: usize, n: u64) -> usize
    requires { (n < 100) × (0 < start) × (start + 2 ≤ length bytes.old) }
    ensures { (result ≡ start + length (digits_of n)) × ((at : ℕ) → Ends bytes.old at result n bytes.new) }
{
    let mut end = start + 1;
    if 10 <= n {
        end = start + 2;
    }
    put_pair(bytes, end - 2, n);
    end
}

// The same of three digits or four. Kept beside `put_short`: a constant for the width would choose between two callees, which is no plainer.
fn put_middle(bytes: &mut [u8], start: usize, n: u64) -> usize
    requires { (100 ≤ n) × (n < 10000) × (0 < start) × (start + 4 ≤ length bytes.old) }
    ensures { (result ≡ start + length (digits_of n)) × ((at : ℕ) → Ends bytes.old at result n bytes.new) }
{
    let mut end = start + 3;
    if 1000 <= n {
        end = start + 4;
    }
    put_four(bytes, end - 4, n);
    end
}

// The digits of a number within C from a place on, with room for a byte before them. Most numbers have one digit, few more than four.
fn put_size(bytes: &mut [u8], at: usize, start: usize, n: u64) -> usize
    requires { (n ≤ bound) × (at < start) × (start + 9 ≤ length bytes.old) }
    ensures { (result ≡ start + length (digits_of n)) × Ends bytes.old at result n bytes.new }
{
    if n < 10000 {
        if n < 100 {
            return put_short(bytes, start, n);
        }
        return put_middle(bytes, start, n);
    }
    let end = start + few_digits(n);
    put_before(bytes, at, end, n);
    end
}

// Where the digits of a number begin that has a space before it.
fn digits_from(at: usize, a: i64) -> usize
    requires { at + 2 < 2 ^ 64 }
    ensures { Begins at a result }
{
    let mut start = at + 1;
    if a < 0 {
        start = at + 2;
    }
    start
}

// What stands before them. The sign is hard to foretell, so the minus is stored in any case, and the space over it where there is none.
fn put_sign(bytes: &mut [u8], at: usize, start: usize)
    requires { (at < start) × (start ≤ length bytes.old) }
    ensures { bytes.new ≡ set (set bytes.old (start - 1) minus) at space }
{
    let sign = start - 1;
    bytes[sign] = 45;
    bytes[at] = 32;
}

// A space and a number.
fn put_spaced(bytes: &mut [u8], at: usize, a: i64) -> usize
    requires { T (small a) × (at + number_bytes ≤ length bytes.old) }
    ensures { Put bytes.old at (spaced (a ∷ [])) number_bytes bytes.new result }
{
    let size = integers::magnitude(a);
    let start = digits_from(at, a);
    let end = put_size(bytes, at, start, size);
    put_sign(bytes, at, start);
    end
}

// The same of a number of one or two digits. Kept beside `put_spaced`: a constant for it would choose between two callees, which is no plainer.
fn put_spaced_pair(bytes: &mut [u8], at: usize, a: i64) -> usize
    requires { (nat_abs a < 100) × (at + 4 ≤ length bytes.old) }
    ensures { Put bytes.old at (spaced (a ∷ [])) number_bytes bytes.new result }
{
    let size = integers::magnitude(a);
    let start = digits_from(at, a);
    let end = put_short(bytes, start, size);
    put_sign(bytes, at, start);
    end
}

// A number of a line past the first, byte by byte: some may be past the store's end.
fn put_far(bytes: &mut [u8], at: usize, a: i64) -> usize
    requires { T (small a) × (at + number_room < 2 ^ 64) }
    ensures { Put bytes.old at (spaced (a ∷ [])) number_bytes bytes.new result }
{
    let next = put_byte(bytes, at, 32);
    put_number(bytes, next, a)
}

// A number of a line past the first.
pub fn put_next(bytes: &mut [u8], at: usize, a: i64) -> usize
    requires { T (small a) × (at + number_room < 2 ^ 64) }
    ensures { Put bytes.old at (spaced (a ∷ [])) number_bytes bytes.new result }
{
    if at + NUMBER_BYTES <= bytes.len() {
        return put_spaced(bytes, at, a);
    }
    put_far(bytes, at, a)
}

// The same of a number of one or two digits, with less room. Kept beside `put_next`: a constant for it would choose between two callees too.
pub fn put_next_short(bytes: &mut [u8], at: usize, a: i64) -> usize
    requires { (nat_abs a < 100) × (at + number_room < 2 ^ 64) }
    ensures { Put bytes.old at (spaced (a ∷ [])) number_bytes bytes.new result }
{
    if at + 4 <= bytes.len() {
        return put_spaced_pair(bytes, at, a);
    }
    put_far(bytes, at, a)
}

// A space and a count of one or two digits.
fn put_few(bytes: &mut [u8], at: usize, n: u64) -> usize
    requires { (n < 100) × (at + 3 ≤ length bytes.old) }
    ensures { Put bytes.old at (spaced (pos n ∷ [])) count_bytes bytes.new result }
{
    let end = put_short(bytes, at + 1, n);
    bytes[at] = 32;
    end
}

pub fn put_next_count(bytes: &mut [u8], at: usize, n: usize) -> usize
    requires { at + count_bytes < 2 ^ 64 }
    ensures { Put bytes.old at (spaced (pos n ∷ [])) count_bytes bytes.new result }
{
    if n < 100 && at + 3 <= bytes.len() {
        return put_few(bytes, at, n as u64);
    }
    let next = put_byte(bytes, at, 32);
    put_digits(bytes, next, n as u64)
}

pub fn put_numbers(bytes: &mut [u8], at: usize, numbers: &[i64]) -> usize
    requires { T (every small numbers.now) × (at + number_room * length numbers.now < 2 ^ 64) }
    ensures { Put bytes.old at (spaced numbers.now) (number_bytes * length numbers.now)
        bytes.new result }
{
    let mut next = at;
    for a in numbers {
        next = put_next(bytes, next, *a);
    }
    next
}

// A line with one number.
pub fn put_count(bytes: &mut [u8], at: usize, n: usize) -> usize
    requires { at + count_bytes < 2 ^ 64 }
    ensures { Put bytes.old at (line (pos n ∷ [])) count_bytes bytes.new result }
{
    let written = put_digits(bytes, at, n as u64);
    put_byte(bytes, written, 10)
}

// Kept beside `put_numbers`: a closure for the number written would be lent the store each time, under a longer contract than both.
pub fn put_columns(bytes: &mut [u8], at: usize, columns: &[usize]) -> usize
    requires { at + count_bytes * length columns.now < 2 ^ 64 }
    ensures { Put bytes.old at (spaced (map pos columns.now)) (count_bytes * length columns.now)
        bytes.new result }
{
    let mut next = at;
    for column in columns {
        next = put_next_count(bytes, next, *column);
    }
    next
}
