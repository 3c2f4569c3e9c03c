// Standard input, for the programs that read as much of it as a store holds.
#![tactic(auto)]

ghost use Rattle.std.specs.Prelude.{◌≡◌, ◌≤◌, length, take};

use std::io::Read;

// 65,536 zeros: room for as much as one read of a pipe gives, and for every input of the programs here.
pub fn large_buffer() -> [u8; 65536]
    ensures { 65536 ≡ length result }
{
    [0; 65536]
}

// Input up to its end, or as much as the store holds: the number of bytes that the store begins with. A read that fails
// ends the input.
pub fn read_full(rt: &impl Input, store: &mut [u8]) -> usize
    ensures in_bounds { result ≤ length store.new }
    ensures counted { result ≡ length (take result store.new) }
{
    let mut reader = rt.reader();
    let mut done = 0;
    // No count: a read takes as many bytes as there are.
    while done < store.len() {
        match reader.read(&mut store[done..]) {
            Ok(0) | Err(_) => return done,
            Ok(count) => done += count,
        }
    }
    done
}
