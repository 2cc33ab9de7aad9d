// One call of a family's reader from any state, forged ones too, and the fresh states. Each puts out the head of its result, and
// the state.
use crate::heads::{HEAD, say_head, told};
use crate::states::{
    MESSAGE, comlynx_state, drives_state, eversolar_state, fronius_state, say_comlynx, say_drives,
    say_eversolar, say_fronius,
};
use std::io::Stdout;
use test_parts::{high, low};

// What is told where there is no message: the answer number, the bytes used, and how many were lost.
fn no_message(number: u8, used: usize, lost: usize) -> [u8; HEAD] {
    [
        number,
        low(used),
        high(used),
        low(lost),
        high(lost),
        0,
        0,
        0,
        0,
        0,
        0,
        0,
        0,
    ]
}

// ---- ComLynx

fn comlynx_message(h: comlynx::Header, used: usize) -> [u8; HEAD] {
    let source = h.source as usize;
    let destination = h.destination as usize;
    [
        MESSAGE,
        low(used),
        high(used),
        0,
        0,
        low(source),
        high(source),
        low(destination),
        high(destination),
        h.kind,
        low(h.len),
        high(h.len),
        0,
    ]
}

pub(crate) fn comlynx_head(answer: comlynx::Answer, used: usize) -> [u8; HEAD] {
    match answer {
        comlynx::Answer::Done => no_message(0, used, 0),
        comlynx::Answer::Message(h) => comlynx_message(h, used),
        comlynx::Answer::Damaged { what, lost } => no_message(what.number(), used, lost as usize),
        comlynx::Answer::Refused(why) => no_message(why.number(), used, 0),
    }
}

pub(crate) fn comlynx(out: Stdout, s: &[u8], piece: &[u8], lent: &mut [u8], head: usize) {
    let step = comlynx_state(s).step(piece, lent);
    let answer = step.answer;
    let state = step.reader;
    say_head(out, comlynx_head(answer, step.used), head);
    say_comlynx(out, state);
}

// ---- Eversolar

fn eversolar_message(h: eversolar::Header, used: usize) -> [u8; HEAD] {
    [
        MESSAGE,
        low(used),
        high(used),
        0,
        0,
        h.source_first,
        h.source_second,
        h.destination_first,
        h.destination_second,
        h.control,
        h.function,
        low(h.len),
        high(h.len),
    ]
}

pub(crate) fn eversolar_head(answer: eversolar::Answer, used: usize) -> [u8; HEAD] {
    match answer {
        eversolar::Answer::Done => no_message(0, used, 0),
        eversolar::Answer::Message(h) => eversolar_message(h, used),
        eversolar::Answer::Damaged { what, lost } => no_message(what.number(), used, lost as usize),
        eversolar::Answer::Refused(why) => no_message(why.number(), used, 0),
    }
}

pub(crate) fn eversolar(out: Stdout, s: &[u8], piece: &[u8], lent: &mut [u8], head: usize) {
    let step = eversolar_state(s).step(piece, lent);
    let answer = step.answer;
    let state = step.reader;
    say_head(out, eversolar_head(answer, step.used), head);
    say_eversolar(out, state);
}

// ---- Fronius

fn fronius_message(h: fronius::Header, used: usize) -> [u8; HEAD] {
    [
        MESSAGE,
        low(used),
        high(used),
        0,
        0,
        h.device,
        h.number,
        h.command,
        low(h.len),
        high(h.len),
        0,
        0,
        0,
    ]
}

pub(crate) fn fronius_head(answer: fronius::Answer, used: usize) -> [u8; HEAD] {
    match answer {
        fronius::Answer::Done => no_message(0, used, 0),
        fronius::Answer::Message(h) => fronius_message(h, used),
        fronius::Answer::Damaged { what, lost } => no_message(what.number(), used, lost as usize),
        fronius::Answer::Refused(why) => no_message(why.number(), used, 0),
    }
}

pub(crate) fn fronius(out: Stdout, s: &[u8], piece: &[u8], lent: &mut [u8], head: usize) {
    let step = fronius_state(s).step(piece, lent);
    let answer = step.answer;
    let state = step.reader;
    say_head(out, fronius_head(answer, step.used), head);
    say_fronius(out, state);
}

// ---- Drives

fn drives_message(h: drives::Header, used: usize) -> [u8; HEAD] {
    [
        MESSAGE,
        low(used),
        high(used),
        0,
        0,
        h.opening,
        h.station_first,
        h.station_second,
        h.letter,
        low(h.len),
        high(h.len),
        0,
        0,
    ]
}

pub(crate) fn drives_head(answer: drives::Answer, used: usize) -> [u8; HEAD] {
    match answer {
        drives::Answer::Done => no_message(0, used, 0),
        drives::Answer::Message(h) => drives_message(h, used),
        drives::Answer::Damaged { what, lost } => no_message(what.number(), used, lost as usize),
        drives::Answer::Refused(why) => no_message(why.number(), used, 0),
    }
}

pub(crate) fn drives(out: Stdout, s: &[u8], piece: &[u8], lent: &mut [u8], head: usize) {
    let step = drives_state(s).step(piece, lent);
    let answer = step.answer;
    let state = step.reader;
    say_head(out, drives_head(answer, step.used), head);
    say_drives(out, state);
}

// ---- the fresh states

pub(crate) fn fresh(out: Stdout, op: u8, head: usize) {
    say_head(out, told(0, 0), head);
    match op {
        0x04 => say_comlynx(out, comlynx::Reader::fresh()),
        0x05 => say_eversolar(out, eversolar::Reader::fresh()),
        0x06 => say_fronius(out, fronius::Reader::fresh()),
        _ => say_drives(out, drives::Reader::fresh()),
    }
}
