// Gives an address by a roster, for the bench. The first byte of standard input says how often, the next 16 are the serial, the rest is the
// roster. Prints the sum of what the calls told, and writes the roster as it is then.
#![tactic(auto)]

mod input;

use answers::Refusal;
use input::read_full;
use std::io::Stdout;
use test_parts::LARGE;

// What is added to the number of a refusal, so that it is no address.
const REFUSED: u64 = 1000;

// What a call told as one number: the address, or a refusal's number from 1,000 on.
fn told(given: Result<u8, Refusal>) -> u64 {
    match given {
        Ok(address) => u64::from(address),
        Err(why) => REFUSED + u64::from(why.number()),
    }
}

// Gives a serial its address so many times, and adds up what was told.
fn given(all: &mut [u8], serial: &[u8], times: u8) -> u64 {
    let mut sum: u64 = 0;
    for _ in 0..times {
        sum = sum.wrapping_add(told(roster::give(all, serial)));
    }
    sum
}

fn show(out: Stdout, all: &mut [u8], serial: &[u8], times: u8) {
    let sum = given(all, serial, times);
    let _ = print!(out; "{sum}");
    let _ = out.write_all(b"\n");
    let _ = out.write_all(&*all);
}

fn main(rt: HostRuntime) {
    let mut input = [0u8; LARGE];
    let mut first = [0u8; 1];
    let mut serial = [0u8; roster::SERIAL_SIZE];
    read_full(&mut rt.stdin(), &mut first);
    read_full(&mut rt.stdin(), &mut serial);
    let n = read_full(&mut rt.stdin(), &mut input);
    show(rt.stdout(), &mut input[..n], &serial, first[0]);
}
