// Paces the readers for the bench as `pace_reading` does, for a host that keeps the held bytes where they are and lends them to each call
// (`step_in_place`). It is a program of its own: with two callers in one the compiler would not put the step where it is called.
#![tactic(auto)]

mod input;

ghost use Rattle.std.specs.Prelude.{◌≤◌};

use input::read_full;
use std::io::Stdout;
use test_parts::{COMLYNX, DRIVES, EVERSOLAR, FRONIUS, LARGE, word_at};

// Where the input has the family and how long a piece is. The frames stand behind them.
const FAMILY: usize = 0;

const PIECE: usize = 1;

const FRAMES: usize = 3;

// How long a piece is that is said to have no byte.
const WHOLE: usize = 65536;

// What the readers are lent: at least 255 bytes, and here as many as leave the stack aligned. By where a state stands, the C library copies it in
// 53 or in 59 instructions (docs/PERFORMANCE.md).
const LENT: usize = 272;

#[derive(Clone, Copy)]
struct Tally {
    messages: u64,
    // the damages, and HALF times the bytes lost with them: one number, since a field more would cost the host's loop a register
    damages: u64,
    check: u64,
}

const HALF: u64 = 4294967296;

// Where the piece ends that `at` lies in, the last one having ended at `end`.
fn piece_end(at: usize, end: usize, piece: usize, len: usize) -> usize
    requires { (at ≤ len) × (at ≤ end) × (end ≤ len) }
    ensures { (at ≤ result) × (result ≤ len) }
{
    if at < end {
        end
    } else {
        if piece < len - at { at + piece } else { len }
    }
}

// Bytes added up, onto a first number.
fn total_of(s: &[u8], first: u64) -> u64 {
    let mut sum = first;
    for b in s {
        sum = sum.wrapping_add(u64::from(*b));
    }
    sum
}

// What is counted before the first call.
fn none() -> Tally {
    Tally {
        messages: 0,
        damages: 0,
        check: 0,
    }
}

// One message more, by its code byte and its length. Its number in the stream, its code and its data all count in the check number.
fn one_more(t: Tally, code: u8, len: usize, lent: &[u8]) -> Tally {
    let told = total_of(&lent[..len.min(lent.len())], u64::from(code));
    Tally {
        messages: t.messages.wrapping_add(1),
        check: t.check.wrapping_mul(3).wrapping_add(told),
        ..t
    }
}

// One damage more, with so many bytes lost.
fn one_worse(t: Tally, lost: u16) -> Tally {
    let damage = HALF * u64::from(lost) + 1;
    Tally {
        damages: t.damages.wrapping_add(damage),
        ..t
    }
}

// Two functions a family, the same but for its reader and its code byte: what an answer adds, and the loop over the pieces. It is no `for`, since each turn
// goes on from the bytes that it used; a call that uses nothing is a refusal. One loop over a trait of the four was tried: it took 31.0 instructions a byte
// in place of 29.5 for Eversolar without data in pieces of 16, above what bench/run allows.
fn comlynx_told(t: Tally, answer: comlynx::Answer, lent: &[u8]) -> Tally {
    match answer {
        comlynx::Answer::Message(h) => one_more(t, h.kind, h.len, lent),
        comlynx::Answer::Damaged { what: _, lost } => one_worse(t, lost),
        comlynx::Answer::Done | comlynx::Answer::Refused(_) => t,
    }
}

fn of_comlynx(input: &[u8], piece: usize, lent: &mut [u8]) -> Tally {
    let reader = comlynx::Reader::fresh();
    let mut held = reader.held;
    let mut s = comlynx::StepInPlace {
        stage: reader.stage,
        came: reader.came,
        count: reader.count,
        answer: comlynx::Answer::Done,
        used: 0,
    };
    let mut t = none();
    let mut at = 0;
    let mut end = 0;
    while at < input.len() {
        end = piece_end(at, end, piece, input.len());
        s = comlynx::step_in_place(s.stage, s.came, s.count, &mut held, &input[at..end], lent);
        if s.used == 0 {
            break;
        }
        at += s.used;
        t = comlynx_told(t, s.answer, lent);
    }
    t
}

fn eversolar_told(t: Tally, answer: eversolar::Answer, lent: &[u8]) -> Tally {
    match answer {
        eversolar::Answer::Message(h) => one_more(t, h.function, h.len, lent),
        eversolar::Answer::Damaged { what: _, lost } => one_worse(t, lost),
        eversolar::Answer::Done | eversolar::Answer::Refused(_) => t,
    }
}

fn of_eversolar(input: &[u8], piece: usize, lent: &mut [u8]) -> Tally {
    let reader = eversolar::Reader::fresh();
    let mut held = reader.held;
    let mut s = eversolar::StepInPlace {
        stage: reader.stage,
        count: reader.count,
        len: reader.len,
        answer: eversolar::Answer::Done,
        used: 0,
    };
    let mut t = none();
    let mut at = 0;
    let mut end = 0;
    while at < input.len() {
        end = piece_end(at, end, piece, input.len());
        s = eversolar::step_in_place(s.stage, s.count, s.len, &mut held, &input[at..end], lent);
        if s.used == 0 {
            break;
        }
        at += s.used;
        t = eversolar_told(t, s.answer, lent);
    }
    t
}

fn fronius_told(t: Tally, answer: fronius::Answer, lent: &[u8]) -> Tally {
    match answer {
        fronius::Answer::Message(h) => one_more(t, h.command, h.len, lent),
        fronius::Answer::Damaged { what: _, lost } => one_worse(t, lost),
        fronius::Answer::Done | fronius::Answer::Refused(_) => t,
    }
}

fn of_fronius(input: &[u8], piece: usize, lent: &mut [u8]) -> Tally {
    let reader = fronius::Reader::fresh();
    let mut held = reader.held;
    let mut s = fronius::StepInPlace {
        stage: reader.stage,
        count: reader.count,
        len: reader.len,
        answer: fronius::Answer::Done,
        used: 0,
    };
    let mut t = none();
    let mut at = 0;
    let mut end = 0;
    while at < input.len() {
        end = piece_end(at, end, piece, input.len());
        s = fronius::step_in_place(s.stage, s.count, s.len, &mut held, &input[at..end], lent);
        if s.used == 0 {
            break;
        }
        at += s.used;
        t = fronius_told(t, s.answer, lent);
    }
    t
}

fn drives_told(t: Tally, answer: drives::Answer, lent: &[u8]) -> Tally {
    match answer {
        drives::Answer::Message(h) => one_more(t, h.letter, h.len, lent),
        drives::Answer::Damaged { what: _, lost } => one_worse(t, lost),
        drives::Answer::Done | drives::Answer::Refused(_) => t,
    }
}

fn of_drives(input: &[u8], piece: usize, lent: &mut [u8]) -> Tally {
    let reader = drives::Reader::fresh();
    let mut held = reader.held;
    let mut s = drives::StepInPlace {
        stage: reader.stage,
        count: reader.count,
        answer: drives::Answer::Done,
        used: 0,
    };
    let mut t = none();
    let mut at = 0;
    let mut end = 0;
    while at < input.len() {
        end = piece_end(at, end, piece, input.len());
        s = drives::step_in_place(s.stage, s.count, &mut held, &input[at..end], lent);
        if s.used == 0 {
            break;
        }
        at += s.used;
        t = drives_told(t, s.answer, lent);
    }
    t
}

// The family is chosen once, outside the loop.
fn tally_of(family: u8, input: &[u8], piece: usize, lent: &mut [u8]) -> Tally {
    match family {
        COMLYNX => of_comlynx(input, piece, lent),
        EVERSOLAR => of_eversolar(input, piece, lent),
        FRONIUS => of_fronius(input, piece, lent),
        DRIVES => of_drives(input, piece, lent),
        _ => none(),
    }
}

// How long a piece is, by what the input says.
fn piece_of(said: u16) -> usize {
    if said == 0 { WHOLE } else { usize::from(said) }
}

fn print(out: Stdout, n: u64, after: &[u8]) {
    let _ = print!(out; "{n}");
    let _ = out.write_all(after);
}

fn show(out: Stdout, family: u8, piece: usize, input: &[u8]) {
    let mut lent = [0u8; LENT];
    let tally = tally_of(family, input, piece, &mut lent);
    print(out, u64::from(family), b" ");
    print(out, tally.messages, b" ");
    print(out, tally.damages % HALF, b" ");
    print(out, tally.damages / HALF, b" ");
    print(out, tally.check, b"\n");
}

fn main(rt: HostRuntime) {
    let mut input = [0u8; LARGE];
    let mut first = [0u8; FRAMES];
    read_full(&mut rt.stdin(), &mut first);
    let n = read_full(&mut rt.stdin(), &mut input);
    let piece = piece_of(word_at(&first, PIECE));
    show(rt.stdout(), first[FAMILY], piece, &input[..n]);
}
