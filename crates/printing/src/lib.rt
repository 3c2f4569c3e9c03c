// Words and numbers on standard output, for the programs that print values. No contract can say what is written, and a
// write that fails is passed over.
#![tactic(auto)]

ghost use Rattle.std.specs.Prelude.{◌≡◌};

pub fn print(rt: &impl Print, word: &[u8])
    ensures { result ≡ tt }
{
    let _ = rt.write_all(word);
}

// A space and a number.
pub fn print_size(rt: &impl Print, n: u64)
    ensures { result ≡ tt }
{
    let _ = print!(rt; " {n}");
}

pub fn print_signed(rt: &impl Print, a: i64)
    ensures { result ≡ tt }
{
    let _ = print!(rt; " {a}");
}
