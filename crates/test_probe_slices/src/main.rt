// Makes the public calls on one whole slice: asks from a place of it, and one whole stretch judged. It reads calls from standard input, makes each, and
// writes its result to standard output, until the input ends or a call is not whole or not among these. The tests outside drive it; tests/PROBE.md
// has the protocol.
#![tactic(auto)]

mod answers_told;
mod asks;
mod calls;
mod input;
mod wire;

use calls::next_call;
use test_parts::LARGE;

// The most calls that are made of one input.
const CALLS_MAX: u32 = 4294967295;

// A slice that is one byte longer than a slice may be, so that this can be tried too.
const SLICE: usize = 65537;

// How many bytes of the slice count is carried from call to call: a call may set the slice for those that come after it.
fn main(rt: HostRuntime) {
    let mut slice = [0u8; SLICE];
    let mut lent = [0u8; LARGE];
    let mut size = 0;
    for _ in 0..CALLS_MAX {
        match next_call(rt.stdin(), rt.stdout(), &mut slice, size, &mut lent) {
            Some(next) => size = next,
            None => return,
        }
    }
}
