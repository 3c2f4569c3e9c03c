// Prints what `integers` gives at zero, at both ends of ±C (SCOPE 8.6), just outside them, and at the ends of i64. A
// line has the value, its size, 1 where it lies within ±C and else 0, its negation, its quotients by 15 and -15, its
// remainder by -16, and the greatest common divisor of its size and 65535. The least i64 has no negation, and its line
// ends after the test of its range.
#![tactic(auto)]

ghost use Rattle.std.specs.Prelude.{◌^◌, ◌<◌, nat_abs};

use integers::BOUND;
use printing::{print, print_signed, print_size};

fn print_range(rt: &impl Print, a: i64) {
    print(rt, b"value");
    print_signed(rt, a);
    print(rt, b" size");
    print_size(rt, integers::magnitude(a));
    print(rt, b" within");
    print_size(rt, integers::within_bound(a) as u64);
}

fn print_values(rt: &impl Print, a: i64)
    requires { nat_abs a < 2 ^ 63 }
{
    print_range(rt, a);
    print(rt, b" negated");
    print_signed(rt, integers::negated(a));
    print(rt, b" quotients");
    print_signed(rt, integers::quotient(a, 15));
    print_signed(rt, integers::quotient(a, -15));
    print(rt, b" remainder");
    print_signed(rt, integers::remainder(a, -16));
    print(rt, b" gcd");
    print_size(rt, integers::gcd(integers::magnitude(a), 65535));
    print(rt, b"\n");
}

fn main(rt: HostRuntime) {
    print_values(&rt, 0);
    print_values(&rt, BOUND);
    print_values(&rt, -BOUND);
    print_values(&rt, BOUND + 1);
    print_values(&rt, -BOUND - 1);
    print_values(&rt, 9_223_372_036_854_775_807);
    print_values(&rt, -9_223_372_036_854_775_807);
    print_range(&rt, -9_223_372_036_854_775_808);
    print(&rt, b"\n");
}
