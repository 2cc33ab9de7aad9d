// Who makes a call.
use crate::session::{Shape, first_of, lend, lent_of, read_on, read_rest, say_lent};
use crate::shapes::{COMLYNX, DRIVES, EVERSOLAR, FRESH, FRONIUS, shape_of};
use crate::{in_place, readers};
use numbers::least;
use std::io::{Stdin, Stdout};
use test_parts::{byte_at, part};

// Makes a call, whose first list is given, and puts out the head of its result and the state.
fn make_with(out: Stdout, who: u8, s: &[u8], first: &[u8], lent: &mut [u8], head: usize) {
    let op = byte_at(s, 0);
    match who {
        COMLYNX => readers::comlynx(out, s, first, lent, head),
        EVERSOLAR => readers::eversolar(out, s, first, lent, head),
        FRONIUS => readers::fronius(out, s, first, lent, head),
        DRIVES => readers::drives(out, s, first, lent, head),
        FRESH => readers::fresh(out, op, head),
        _ => in_place::call(out, op, s, first, lent),
    }
}

// Makes a call over the first `n` bytes of what is lent, and puts out the rest of its result.
fn make_over(out: Stdout, s: &[u8], lent: &mut [u8], n: usize, shape: Shape) {
    let to = least(n, lent.len());
    make_with(
        out,
        shape.who,
        s,
        first_of(s, shape),
        &mut lent[0..to],
        shape.head,
    );
    say_lent(out, part(lent, 0, n), shape.lent);
}

// Makes a call and puts its result out: its length, the head, the state, and what was lent.
fn make(out: Stdout, s: &[u8], lent: &mut [u8]) {
    let shape = shape_of(byte_at(s, 0));
    let list = lent_of(s, shape);
    lend(out, list, lent, shape);
    make_over(out, s, lent, list.len(), shape);
}

// Reads the next call to the front of a buffer. Answers its length, far more than there is room for where it is not whole.
fn read(stdin: Stdin, call: &mut [u8]) -> usize {
    let next = read_on(stdin, call, 0, 1);
    read_rest(stdin, call, next, shape_of(byte_at(call, 0)))
}

// Reads the next call and makes it. Tells whether there was a whole one.
pub(crate) fn next_call(stdin: Stdin, out: Stdout, call: &mut [u8], lent: &mut [u8]) -> bool {
    let n = read(stdin, call);
    if n > call.len() {
        return false;
    }
    make(out, part(call, 0, n), lent);
    true
}
