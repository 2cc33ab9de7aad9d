// Makes the public calls of the lines of text, of the readers of all ports, and of a listing. It reads calls from standard input, makes each, and writes
// its result to standard output, until the input ends or a call is not whole or not among these. The tests outside drive it; tests/PROBE.md has the
// protocol.
#![tactic(auto)]

mod calls;
mod heads;
mod input;
mod packets;
mod session;
mod shapes;
mod sides;
mod states;
mod texts;
mod wire;

use calls::next_call;
use test_parts::LARGE;

// The most calls that are made of one input.
const CALLS_MAX: u32 = 4294967295;

// The buffers hold more than any call, and more than any call lends.
fn main(rt: HostRuntime) {
    let mut call = [0u8; LARGE];
    let mut lent = [0u8; LARGE];
    for _ in 0..CALLS_MAX {
        if !next_call(rt.stdin(), rt.stdout(), &mut call, &mut lent) {
            return;
        }
    }
}
