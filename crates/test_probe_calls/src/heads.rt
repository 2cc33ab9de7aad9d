// The head of a result: the answer number and the numbers behind it, as bytes, up to as many as any result has. `shapes` says how many of
// them count.
use crate::wire::say;
use std::io::Stdout;
use test_parts::part;

pub(crate) const HEAD: usize = 13;

// A byte of a number, by the power of 256 that it counts.
fn byte_of(n: u64, power: u64) -> u8 {
    if power == 0 {
        return 0;
    }
    (n / power % 256) as u8
}

// An answer number, and a number low byte first.
pub(crate) fn told(number: u8, n: u64) -> [u8; HEAD] {
    [
        number,
        byte_of(n, 1),
        byte_of(n, 0x100),
        byte_of(n, 0x10000),
        byte_of(n, 0x1000000),
        byte_of(n, 0x100000000),
        byte_of(n, 0x10000000000),
        byte_of(n, 0x1000000000000),
        byte_of(n, 0x100000000000000),
        0,
        0,
        0,
        0,
    ]
}

// Puts out as much of a head as counts.
pub(crate) fn say_head(out: Stdout, head: [u8; HEAD], n: usize) {
    say(out, part(&head, 0, n));
}
