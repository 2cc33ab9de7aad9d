// Reading a call, and who makes it.
use crate::asks;
use crate::asks::{ComLynx, Drives, Eversolar, Fronius};
use crate::input::read_full;
use crate::wire::{WORD, list_size};
use std::io::{Stdin, Stdout};
use test_parts::part;

// The calls, by their opcodes.
const SET: u8 = 0x91;

const COMLYNX: u8 = 0x92;

const EVERSOLAR: u8 = 0x93;

const FRONIUS: u8 = 0x94;

const DRIVES: u8 = 0x95;

const STRETCH: u8 = 0x96;

// So many bytes of the input, if there are as many.
fn read_bytes<const N: usize>(mut stdin: Stdin) -> Option<[u8; N]> {
    let mut bytes = [0u8; N];
    let n = read_full(&mut stdin, &mut bytes);
    if n == N { Some(bytes) } else { None }
}

// Fills the front of a buffer from the input, so many bytes of it. Answers them, if the buffer has and the input brings as many.
fn read_front(mut stdin: Stdin, s: &mut [u8], n: usize) -> Option<&mut [u8]> {
    let front = s.get_mut(..n)?;
    if read_full(&mut stdin, front) < n {
        return None;
    }
    Some(front)
}

// Sets the slice: its length, four bytes, then its bytes.
fn set(stdin: Stdin, out: Stdout, slice: &mut [u8]) -> Option<usize> {
    let length = u32::from_le_bytes(read_bytes(stdin)?);
    let n = read_front(stdin, slice, length as usize)?.len();
    asks::say_set(out);
    Some(n)
}

// Reads the list that is lent to the front of a buffer.
fn read_lent(stdin: Stdin, lent: &mut [u8]) -> Option<&mut [u8]> {
    let length: [u8; WORD] = read_bytes(stdin)?;
    read_front(stdin, lent, list_size(&length, 0))
}

// Makes a call over what is lent.
fn make(out: Stdout, op: u8, slice: &[u8], place: usize, lent: &mut [u8]) {
    match op {
        COMLYNX => asks::say_asked::<ComLynx>(out, slice, place, lent),
        EVERSOLAR => asks::say_asked::<Eversolar>(out, slice, place, lent),
        FRONIUS => asks::say_asked::<Fronius>(out, slice, place, lent),
        DRIVES => asks::say_asked::<Drives>(out, slice, place, lent),
        _ => asks::stretch_judged(out, slice, lent),
    }
}

// Reads what a call lends, and makes it.
fn call(
    stdin: Stdin,
    out: Stdout,
    op: u8,
    slice: &[u8],
    place: usize,
    lent: &mut [u8],
) -> Option<()> {
    let lent = read_lent(stdin, lent)?;
    make(out, op, slice, place, lent);
    Some(())
}

// The same of a call that asks from a place, which stands before what is lent.
fn ask(stdin: Stdin, out: Stdout, op: u8, slice: &[u8], lent: &mut [u8]) -> Option<()> {
    let place = u64::from_le_bytes(read_bytes(stdin)?);
    call(stdin, out, op, slice, place as usize, lent)
}

// Reads the next call and makes it. Answers how many bytes the slice has after it, if there was a whole call.
pub(crate) fn next_call(
    stdin: Stdin,
    out: Stdout,
    slice: &mut [u8],
    size: usize,
    lent: &mut [u8],
) -> Option<usize> {
    let [op] = read_bytes::<1>(stdin)?;
    match op {
        SET => return set(stdin, out, slice),
        STRETCH => call(stdin, out, op, part(slice, 0, size), 0, lent)?,
        COMLYNX | EVERSOLAR | FRONIUS | DRIVES => {
            ask(stdin, out, op, part(slice, 0, size), lent)?
        }
        _ => return None,
    }
    Some(size)
}
