// Paces the writers and the checksum for the bench. The first byte of standard input names a family, or one of the two checksums; the next two say how often, the
// next two how much room is lent, high byte first; the next which byte of it is looked at after each call; the rest is the data. Prints the sum of
// what the calls told and the bytes looked at, and writes the lent buffer.
#![tactic(auto)]

mod input;

use answers::Refusal;
use input::read_full;
use std::io::Stdout;
use test_parts::{COMLYNX, DRIVES, EVERSOLAR, FRONIUS, LARGE, size_at, word_at};

// What is called where it is no family's writer.
const CHECKSUM: u8 = 5;

const CHECKSUM_BITWISE: u8 = 6;

// Where the input has what is called, how often, how much room is lent and which byte is looked at. The data stand behind them.
const CALLED: usize = 0;

const TIMES: usize = 1;

const ROOM: usize = 3;

const LOOK: usize = 5;

const PAYLOAD: usize = 6;

// Room for every frame.
const LENT: usize = 600;

// A refusal counts as its answer number and this.
const REFUSED: usize = 1000;

// What a call told as one number: the length and the byte looked at, or a refusal. Nobody knows before which byte that is, so that no call can be
// left out whose bytes the next call writes over.
fn told(written: Result<usize, Refusal>, lent: &[u8], look: usize) -> usize {
    match written {
        Ok(length) => length.wrapping_add(size_at(lent, look)),
        Err(why) => REFUSED + usize::from(why.number()),
    }
}

// The last hex digit of a number.
fn digit(n: u16) -> u8 {
    let low = (n % 16) as u8;
    if low < 10 { 0x30 + low } else { 0x37 + low }
}

// One message of each family. A number of it counts up, so that no two calls write the same.
fn comlynx_frame(n: u16, bytes: &[u8], lent: &mut [u8]) -> Result<usize, Refusal> {
    comlynx::write(n, 0x11ff, 0x15, bytes, lent)
}

fn eversolar_frame(n: u16, bytes: &[u8], lent: &mut [u8]) -> Result<usize, Refusal> {
    let [high, low] = n.to_be_bytes();
    eversolar::write(1, 0, high, low, 0x11, 0x02, bytes, lent)
}

fn fronius_frame(n: u16, bytes: &[u8], lent: &mut [u8]) -> Result<usize, Refusal> {
    let [high, low] = n.to_be_bytes();
    fronius::write(1, high, low, bytes, lent)
}

// The station counts up where the others have a number: its two characters go through all that are in the set.
fn drives_frame(n: u16, bytes: &[u8], lent: &mut [u8]) -> Result<usize, Refusal> {
    drives::write(0x05, digit(n / 16), digit(n), 0x52, bytes, lent)
}

// So many messages of a family.
fn frames<W: Fn(u16, &[u8], &mut [u8]) -> Result<usize, Refusal>>(
    write: W,
    times: u16,
    look: usize,
    bytes: &[u8],
    lent: &mut [u8],
) -> usize
    requires { W.IsAlwaysCallable write }
{
    let mut sum: usize = 0;
    for n in 0..times {
        let written = write(n, bytes, lent);
        sum = sum.wrapping_add(told(written, lent, look));
    }
    sum
}

// So many checksums. Each goes on from the one before, so that none can be left out.
fn checksums<M: Fn(u16, &[u8]) -> u16>(more: M, times: u16, bytes: &[u8]) -> usize
    requires { M.IsAlwaysCallable more }
{
    let mut state: u16 = 0xffff;
    for _ in 0..times {
        state = more(state, bytes);
    }
    usize::from(state)
}

// What is called is chosen once, outside the loop.
fn sum_of(what: u8, times: u16, look: usize, bytes: &[u8], lent: &mut [u8]) -> usize {
    match what {
        COMLYNX => frames(comlynx_frame, times, look, bytes, lent),
        EVERSOLAR => frames(eversolar_frame, times, look, bytes, lent),
        FRONIUS => frames(fronius_frame, times, look, bytes, lent),
        DRIVES => frames(drives_frame, times, look, bytes, lent),
        CHECKSUM => checksums(comlynx_checksum::more, times, bytes),
        CHECKSUM_BITWISE => checksums(comlynx_checksum_bitwise::more, times, bytes),
        _ => 0,
    }
}

fn show(out: Stdout, what: u8, times: u16, look: usize, bytes: &[u8], lent: &mut [u8]) {
    let sum = sum_of(what, times, look, bytes, lent);
    let _ = println!(out; "{sum}");
    let _ = out.write_all(lent);
}

// Lends so much room, as far as there is.
fn with_room(out: Stdout, room: usize, what: u8, times: u16, look: usize, bytes: &[u8]) {
    let mut lent = [0u8; LENT];
    show(out, what, times, look, bytes, &mut lent[..room.min(LENT)]);
}

fn main(rt: HostRuntime) {
    let mut input = [0u8; LARGE];
    let mut first = [0u8; PAYLOAD];
    read_full(&mut rt.stdin(), &mut first);
    let n = read_full(&mut rt.stdin(), &mut input);
    let times = word_at(&first, TIMES);
    let room = usize::from(word_at(&first, ROOM));
    with_room(
        rt.stdout(),
        room,
        first[CALLED],
        times,
        usize::from(first[LOOK]),
        &input[..n],
    );
}
