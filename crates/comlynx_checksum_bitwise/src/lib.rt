// The checksum of ComLynx bit by bit, for the board that has no room for a table. Its calls promise what those of `comlynx_checksum` promise, word for word.
#![tactic(auto)]

ghost use Rattle.std.specs.Prelude.{◌≡◌};
ghost use Rattle.comlynx_checksum.specs.Checksum.{bit_step, bit_steps, checksum_next, IsOf, IsOfBoth, IsOfFirst, IsMore};

// What is sent after a state has no table in it, and is the same call for every board.
pub use comlynx_checksum::{Sent, sent_of};

// The state before the first byte.
const START: u16 = 0xffff;

// The reversed polynomial.
const POLY: u16 = 0x8408;

// One bit: a 1 that falls out takes the polynomial to what is left.
fn bit(state: u16) -> u16
    ensures { result ≡ bit_step state }
{
    if state % 2 == 1 {
        (state / 2) ^ POLY
    } else {
        state / 2
    }
}

// The bits stand in a row, with no loop over them: a compiler that knows the loop makes a table of it.
fn two(state: u16) -> u16
    ensures { result ≡ bit_steps 2 state }
{
    bit(bit(state))
}

fn four(state: u16) -> u16
    ensures { result ≡ bit_steps 4 state }
{
    two(two(state))
}

// The state after one byte more: eight bits, one after another.
fn next(state: u16, byte: u8) -> u16
    ensures { result ≡ checksum_next state byte }
{
    four(four(state ^ u16::from(byte)))
}

// The checksum going on from a state over more bytes. Every call goes by this one loop.
pub fn more(state: u16, bytes: &[u8]) -> u16
    ensures { IsMore state bytes.now result }
{
    let mut after = state;
    for byte in bytes {
        after = next(after, *byte);
    }
    after
}

// The checksum of bytes, before the complement.
pub fn of(bytes: &[u8]) -> u16
    ensures { IsOf bytes.now result }
{
    more(START, bytes)
}

// The checksum of two slices, one after another.
pub fn of_both(first: &[u8], second: &[u8]) -> u16
    ensures { IsOfBoth first.now second.now result }
{
    more(of(first), second)
}

// The checksum of the first `n` bytes, or of all where there are fewer.
pub fn of_first(bytes: &[u8], n: usize) -> u16
    ensures { IsOfFirst bytes.now n result }
{
    let end = n.min(bytes.len());
    of(&bytes[..end])
}
