// Paces the readers of slices for the bench: the whole input is one slice, asked from 0 and then from each place given. It takes what `pace_reading`
// takes, and prints the line that it prints.
#![tactic(auto)]

mod input;

use input::read_full;
use std::io::Stdout;
use test_parts::{COMLYNX, DRIVES, EVERSOLAR, FRONIUS, LARGE};

// Where the input has the family. How long a piece is stands behind it, and is of no use here; then come the frames.
const FAMILY: usize = 0;

const FRAMES: usize = 3;

// What the readers are lent: as much as in `pace_reading`.
const LENT: usize = 272;

#[derive(Clone, Copy)]
struct Tally {
    messages: u64,
    // the damages, and HALF times the bytes lost with them: one number, since a field more would cost the host's loop a register
    damages: u64,
    check: u64,
}

const HALF: u64 = 4294967296;

// Bytes added up.
fn total_of(s: &[u8]) -> u64 {
    let mut sum: u64 = 0;
    for b in s {
        sum = sum.wrapping_add(u64::from(*b));
    }
    sum
}

// What is counted before the first call.
fn none() -> Tally {
    Tally {
        messages: 0,
        damages: 0,
        check: 0,
    }
}

// One message more, by its code byte and its length. Its number in the stream, its code and its data all count in the check number.
fn one_more(t: Tally, code: u8, len: usize, lent: &[u8]) -> Tally {
    let told = u64::from(code).wrapping_add(total_of(&lent[..len.min(lent.len())]));
    Tally {
        messages: t.messages.wrapping_add(1),
        check: t.check.wrapping_mul(3).wrapping_add(told),
        ..t
    }
}

// One damage more, with so many bytes lost.
fn one_worse(t: Tally, lost: u16) -> Tally {
    let damage = HALF * u64::from(lost) + 1;
    Tally {
        damages: t.damages.wrapping_add(damage),
        ..t
    }
}

// A family, by its reader of slices and its code byte.
trait Family {
    type Answer: Copy;

    // Asks the slice from a place. Gives a place too: one that is not past the one asked from comes with a refusal.
    fn ask(input: &[u8], at: usize, lent: &mut [u8]) -> (usize, Self::Answer);

    // What an answer adds.
    fn told(t: Tally, answer: Self::Answer, lent: &[u8]) -> Tally;
}

struct ComLynx;

struct Eversolar;

struct Fronius;

struct Drives;

impl Family for ComLynx {
    type Answer = comlynx::Answer;

    fn ask(input: &[u8], at: usize, lent: &mut [u8]) -> (usize, comlynx::Answer) {
        let found = comlynx::answer_at(input, at, lent);
        (found.place, found.answer)
    }

    fn told(t: Tally, answer: comlynx::Answer, lent: &[u8]) -> Tally {
        match answer {
            comlynx::Answer::Message(h) => one_more(t, h.kind, h.len, lent),
            comlynx::Answer::Damaged { what: _, lost } => one_worse(t, lost),
            comlynx::Answer::Done | comlynx::Answer::Refused(_) => t,
        }
    }
}

impl Family for Eversolar {
    type Answer = eversolar::Answer;

    fn ask(input: &[u8], at: usize, lent: &mut [u8]) -> (usize, eversolar::Answer) {
        let found = eversolar::answer_at(input, at, lent);
        (found.place, found.answer)
    }

    fn told(t: Tally, answer: eversolar::Answer, lent: &[u8]) -> Tally {
        match answer {
            eversolar::Answer::Message(h) => one_more(t, h.function, h.len, lent),
            eversolar::Answer::Damaged { what: _, lost } => one_worse(t, lost),
            eversolar::Answer::Done | eversolar::Answer::Refused(_) => t,
        }
    }
}

impl Family for Fronius {
    type Answer = fronius::Answer;

    fn ask(input: &[u8], at: usize, lent: &mut [u8]) -> (usize, fronius::Answer) {
        let found = fronius::answer_at(input, at, lent);
        (found.place, found.answer)
    }

    fn told(t: Tally, answer: fronius::Answer, lent: &[u8]) -> Tally {
        match answer {
            fronius::Answer::Message(h) => one_more(t, h.command, h.len, lent),
            fronius::Answer::Damaged { what: _, lost } => one_worse(t, lost),
            fronius::Answer::Done | fronius::Answer::Refused(_) => t,
        }
    }
}

impl Family for Drives {
    type Answer = drives::Answer;

    fn ask(input: &[u8], at: usize, lent: &mut [u8]) -> (usize, drives::Answer) {
        let found = drives::answer_at(input, at, lent);
        (found.place, found.answer)
    }

    fn told(t: Tally, answer: drives::Answer, lent: &[u8]) -> Tally {
        match answer {
            drives::Answer::Message(h) => one_more(t, h.letter, h.len, lent),
            drives::Answer::Damaged { what: _, lost } => one_worse(t, lost),
            drives::Answer::Done | drives::Answer::Refused(_) => t,
        }
    }
}

// The loop over the slice. It is no `for`, since each turn goes on from the place that it was given.
fn of<F: Family>(input: &[u8], lent: &mut [u8]) -> Tally {
    let mut t = none();
    let mut at = 0;
    while at < input.len() {
        let (place, answer) = F::ask(input, at, lent);
        if place <= at {
            break;
        }
        at = place;
        t = F::told(t, answer, lent);
    }
    t
}

// The family is chosen once, outside the loop.
fn tally_of(family: u8, input: &[u8], lent: &mut [u8]) -> Tally {
    match family {
        COMLYNX => of::<ComLynx>(input, lent),
        EVERSOLAR => of::<Eversolar>(input, lent),
        FRONIUS => of::<Fronius>(input, lent),
        DRIVES => of::<Drives>(input, lent),
        _ => none(),
    }
}

fn print(out: Stdout, n: u64, after: &[u8]) {
    let _ = print!(out; "{n}");
    let _ = out.write_all(after);
}

fn show(out: Stdout, family: u8, input: &[u8]) {
    let mut lent = [0u8; LENT];
    let tally = tally_of(family, input, &mut lent);
    print(out, u64::from(family), b" ");
    print(out, tally.messages, b" ");
    print(out, tally.damages % HALF, b" ");
    print(out, tally.damages / HALF, b" ");
    print(out, tally.check, b"\n");
}

fn main(rt: HostRuntime) {
    let mut input = [0u8; LARGE];
    let mut first = [0u8; FRAMES];
    read_full(&mut rt.stdin(), &mut first);
    let n = read_full(&mut rt.stdin(), &mut input);
    show(rt.stdout(), first[FAMILY], &input[..n]);
}
