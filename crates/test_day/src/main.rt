// Goes over a whole day of one port as a server does. Standard input has a byte for the family, a byte for the way, and then the bytes of the port, any
// number of them, up to the end of input. The way is 0 for the reader of slices, or how long the pieces are in which the streaming reader is handed the
// day. Whatever the way, the lines are the same: one for each message and each damage (`lines`). Of another family, and of no input, nothing is printed.
//
// Every function that is called from elsewhere takes any number and any slice, so that no caller owes a proof.
#![tactic(auto)]

mod families;
mod input;
mod lines;
mod slices;
mod streams;
mod window;

use families::Family;
use input::read_full;
use slices::day_by_slices;
use std::io::{Stdin, Stdout};
use streams::stream;
use test_parts::{COMLYNX, DRIVES, EVERSOLAR, FRONIUS, LARGE};
use window::before_the_day;

// Where the input has the family and the way. The day stands behind them.
const FAMILY: usize = 0;

const WAY: usize = 1;

const DAY: usize = 2;

// What the readers are lent: at least 255 bytes.
const LENT: usize = 256;

// The way in which slices are read. Every other is the length of a piece.
const SLICES: usize = 0;

// The whole day by the streaming reader. A piece is as long as the buffer that it is handed.
fn day_by_pieces<F: Family>(
    stdin: Stdin,
    out: Stdout,
    len: usize,
    buffer: &mut [u8],
    lent: &mut [u8],
) {
    let n = len.min(buffer.len());
    stream::<F>(stdin, out, &mut buffer[..n], before_the_day(), false, lent);
}

fn day<F: Family>(stdin: Stdin, out: Stdout, way: usize, buffer: &mut [u8], lent: &mut [u8]) {
    if way == SLICES {
        day_by_slices::<F>(stdin, out, buffer, lent);
    } else {
        day_by_pieces::<F>(stdin, out, way, buffer, lent);
    }
}

fn main(rt: HostRuntime) {
    let mut buffer = [0u8; LARGE];
    let mut lent = [0u8; LENT];
    let mut first = [0u8; DAY];
    read_full(&mut rt.stdin(), &mut first);
    let way = usize::from(first[WAY]);
    let stdin = rt.stdin();
    let out = rt.stdout();
    match first[FAMILY] {
        COMLYNX => day::<comlynx::Reader>(stdin, out, way, &mut buffer, &mut lent),
        EVERSOLAR => day::<eversolar::Reader>(stdin, out, way, &mut buffer, &mut lent),
        FRONIUS => day::<fronius::Reader>(stdin, out, way, &mut buffer, &mut lent),
        DRIVES => day::<drives::Reader>(stdin, out, way, &mut buffer, &mut lent),
        _ => {}
    }
}
