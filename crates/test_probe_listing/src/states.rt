// A reader's state as the bytes of a call and of its result: any state, forged ones too.
use crate::wire::{put, say, say_size, size_at, word_at};
use std::io::Stdout;
use test_parts::{byte_at, part};

// The answer number of a message.
pub(crate) const MESSAGE: u8 = 1;

// How many bytes the numbers of a state have: the stage, the count, and the length, of ComLynx how many bytes came.
pub(crate) const NUMBERS: usize = 5;

// Of drives only the stage and the count.
pub(crate) const DRIVES_NUMBERS: usize = 3;

// Where a reader's held bytes end in a state, and where the state ends.
pub(crate) const COMLYNX_HELD: usize = 265;

pub(crate) const COMLYNX_STATE: usize = COMLYNX_HELD + NUMBERS;

pub(crate) const EVERSOLAR_HELD: usize = 263;

pub(crate) const EVERSOLAR_STATE: usize = EVERSOLAR_HELD + NUMBERS;

pub(crate) const FRONIUS_HELD: usize = 130;

pub(crate) const FRONIUS_STATE: usize = FRONIUS_HELD + NUMBERS;

pub(crate) const DRIVES_HELD: usize = 42;

pub(crate) const DRIVES_STATE: usize = DRIVES_HELD + DRIVES_NUMBERS;

// Where a state has its numbers behind its held bytes. The byte before the state, an opcode or the last byte of another state, counts too.
const STAGE: usize = 1;

const COUNT: usize = 2;

const LEN: usize = 4;

const CAME: usize = 4;

// Puts out stage and count.
pub(crate) fn say_counted(out: Stdout, stage: u8, count: usize) {
    let stage = [stage];
    say(out, &stage);
    say_size(out, count);
}

// Puts out a state, whose last number is its length or how many bytes came.
fn say_state(out: Stdout, held: &[u8], stage: u8, count: usize, last: usize) {
    say(out, held);
    say_counted(out, stage, count);
    say_size(out, last);
}

// ---- ComLynx

pub(crate) fn comlynx_state(s: &[u8]) -> comlynx::Reader {
    let mut held = [0u8; COMLYNX_HELD];
    put(&mut held, 0, part(s, 1, COMLYNX_HELD));
    comlynx::Reader {
        held,
        stage: byte_at(s, COMLYNX_HELD + STAGE),
        came: word_at(s, COMLYNX_HELD + CAME),
        count: size_at(s, COMLYNX_HELD + COUNT),
    }
}

pub(crate) fn say_comlynx(out: Stdout, state: comlynx::Reader) {
    let held = state.held;
    say_state(out, &held, state.stage, state.count, state.came as usize);
}

// ---- Eversolar

pub(crate) fn eversolar_state(s: &[u8]) -> eversolar::Reader {
    let mut held = [0u8; EVERSOLAR_HELD];
    put(&mut held, 0, part(s, 1, EVERSOLAR_HELD));
    eversolar::Reader {
        held,
        stage: byte_at(s, EVERSOLAR_HELD + STAGE),
        count: size_at(s, EVERSOLAR_HELD + COUNT),
        len: size_at(s, EVERSOLAR_HELD + LEN),
    }
}

pub(crate) fn say_eversolar(out: Stdout, state: eversolar::Reader) {
    let held = state.held;
    say_state(out, &held, state.stage, state.count, state.len);
}

// ---- Fronius

pub(crate) fn fronius_state(s: &[u8]) -> fronius::Reader {
    let mut held = [0u8; FRONIUS_HELD];
    put(&mut held, 0, part(s, 1, FRONIUS_HELD));
    fronius::Reader {
        held,
        stage: byte_at(s, FRONIUS_HELD + STAGE),
        count: size_at(s, FRONIUS_HELD + COUNT),
        len: size_at(s, FRONIUS_HELD + LEN),
    }
}

pub(crate) fn say_fronius(out: Stdout, state: fronius::Reader) {
    let held = state.held;
    say_state(out, &held, state.stage, state.count, state.len);
}

// ---- Drives

pub(crate) fn drives_state(s: &[u8]) -> drives::Reader {
    let mut held = [0u8; DRIVES_HELD];
    put(&mut held, 0, part(s, 1, DRIVES_HELD));
    drives::Reader {
        held,
        stage: byte_at(s, DRIVES_HELD + STAGE),
        count: size_at(s, DRIVES_HELD + COUNT),
    }
}

pub(crate) fn say_drives(out: Stdout, state: drives::Reader) {
    let held = state.held;
    say(out, &held);
    say_counted(out, state.stage, state.count);
}
