// Prints the integer roots of the polynomials on standard input, ascending, and then the smallest and the largest. The input is a line that
// says how often each polynomial is searched (1 but where a search is measured), and for each polynomial a line with its 16
// coefficients, from power 0 up. The last line says how many roots all searches together have found.
#![tactic(auto)]

ghost use Rattle.std.specs.Prelude.{◌≡◌, ◌^◌, ◌<◌, ◌≤◌, T, IfSome, length};
ghost use Rattle.rules.specs.Limits.{small};
ghost use Rattle.lists.specs.Tests.{every};

use multiplicities::RootsWith;
use printing::{print, print_signed, print_size};

// No polynomial of the elimination has more (SCOPE 1.4).
const COEFFICIENTS: usize = 16;
// A number is read as far as it is below this.
const LONG: u64 = 1_000_000_000;

fn digit_at(bytes: &[u8], at: usize) -> Option<u64>
    ensures { IfSome result (λ digit. (digit < 10) × (at < length bytes.now)) }
{
    match bytes.get(at) {
        Some(byte @ b'0'..=b'9') => Some(u64::from(*byte - b'0')),
        _ => None,
    }
}

fn signed(size: u64, negative: bool) -> i64
    requires { size < 2 ^ 40 }
{
    let number = size as i64;
    if negative {
        integers::negated(number)
    } else {
        number
    }
}

// A number of the input, and the place after the byte behind it.
#[derive(Drop)]
struct Number {
    value: i64,
    next: usize,
}

fn number_at(bytes: &[u8], from: usize) -> Number
    requires { from < length bytes.now }
    ensures { from < result.next }
{
    let negative = bytes[from] == b'-';
    let mut at = if negative { from + 1 } else { from };
    let mut size: u64 = 0;
    // No count: the digits are as many as there are, below the limit.
    while size < LONG {
        let Some(digit) = digit_at(bytes, at) else {
            break;
        };
        size = size * 10 + digit;
        at += 1;
    }
    Number {
        value: signed(size, negative),
        next: at + 1,
    }
}

// A polynomial of the input, 0 past the input's end, and the place behind it.
#[derive(Drop)]
struct Line {
    values: [i64; COEFFICIENTS],
    next: usize,
}

fn polynomial_at(bytes: &[u8], from: usize) -> Line
    requires { from < length bytes.now }
    ensures { from < result.next }
{
    let mut values = [0; COEFFICIENTS];
    let mut at = from;
    for value in &mut values {
        if bytes.len() <= at {
            break;
        }
        let read = number_at(bytes, at);
        *value = read.value;
        at = read.next;
    }
    Line { values, next: at }
}

// How many roots so many searches find together.
fn found_by(p: &[i64], searches: u64) -> u64
    requires { (length p.now ≡ 16) × T (every small p.now) }
{
    let mut found: u64 = 0;
    for _ in 0..searches {
        let all = multiplicities::roots_with(p);
        found = found.wrapping_add(all.count as u64);
    }
    found
}

fn print_list(rt: &impl Print, all: RootsWith)
    requires { all.count ≤ 16 }
{
    for root in &all.roots[..all.count] {
        print_signed(rt, root.value);
    }
}

fn print_roots(rt: &impl Print, p: &[i64])
    requires { (length p.now ≡ 16) × T (every small p.now) }
{
    print(rt, b"roots");
    print_list(rt, multiplicities::roots_with(p));
    if let (Some(least), Some(most)) = (
        multiplicities::smallest_with(p),
        multiplicities::largest_with(p),
    ) {
        print(rt, b" from");
        print_signed(rt, least.value);
        print(rt, b" to");
        print_signed(rt, most.value);
    }
    print(rt, b"\n");
}

// A polynomial with a coefficient past ±C is passed over.
fn searched(rt: &impl Print, p: &[i64; COEFFICIENTS], searches: u64) -> u64 {
    if stores::checks::all_small(p) {
        print_roots(rt, p);
        found_by(p, searches)
    } else {
        print(rt, b"a coefficient is too large\n");
        0
    }
}

fn searched_all(rt: &impl Print, bytes: &[u8]) -> u64
    requires { 0 < length bytes.now }
{
    let first = number_at(bytes, 0);
    let searches = integers::magnitude(first.value);
    let mut found: u64 = 0;
    let mut at = first.next;
    // No count: a line is as long as it is.
    while at < bytes.len() {
        let next = polynomial_at(bytes, at);
        let values = next.values;
        found = found.wrapping_add(searched(rt, &values, searches));
        at = next.next;
    }
    found
}

fn main(rt: HostRuntime) {
    let mut input = inputs::large_buffer();
    let count = inputs::read_full(&rt, &mut input);
    if 0 < count {
        let found = searched_all(&rt, &input[..count]);
        print(&rt, b"found");
        print_size(&rt, found);
        print(&rt, b"\n");
    }
}
