// One call of a family's reader over lent held bytes, of any length. What is told of it is as in `readers`; its numbers and the held bytes as they
// are then stand behind that.
use crate::heads::say_head;
use crate::readers::{comlynx_head, drives_head, eversolar_head, fronius_head};
use crate::shapes::{COMLYNX_HEAD, DRIVES_HEAD, EVERSOLAR_HEAD, FRONIUS_HEAD};
use crate::states::{DRIVES_NUMBERS, NUMBERS, say_counted};
use crate::wire::{WORD, list_at, past_list, put, say_list, say_size, size_at, word_at};
use numbers::least;
use std::io::Stdout;
use test_parts::{byte_at, further, part};

// How many held bytes are lent at most: more than any reader holds.
const HELD_MAX: usize = 512;

// Where a call has its numbers.
const STAGE: usize = 1;

const COUNT: usize = 2;

const LEN: usize = 4;

const CAME: usize = 4;

// The piece stands behind the held bytes, and these behind the opcode and so many bytes of numbers.
fn piece_of(s: &[u8], numbers: usize) -> &[u8] {
    list_at(s, past_list(s, further(1, numbers)))
}

fn say_numbers(out: Stdout, stage: u8, count: usize, last: usize) {
    say_counted(out, stage, count);
    say_size(out, last);
}

fn comlynx(out: Stdout, s: &[u8], held: &mut [u8], lent: &mut [u8]) {
    let step = comlynx::step_in_place(
        byte_at(s, STAGE),
        word_at(s, CAME),
        size_at(s, COUNT),
        held,
        piece_of(s, NUMBERS),
        lent,
    );
    let answer = step.answer;
    say_head(out, comlynx_head(answer, step.used), COMLYNX_HEAD);
    say_numbers(out, step.stage, step.count, step.came as usize);
}

fn eversolar(out: Stdout, s: &[u8], held: &mut [u8], lent: &mut [u8]) {
    let step = eversolar::step_in_place(
        byte_at(s, STAGE),
        size_at(s, COUNT),
        size_at(s, LEN),
        held,
        piece_of(s, NUMBERS),
        lent,
    );
    let answer = step.answer;
    say_head(out, eversolar_head(answer, step.used), EVERSOLAR_HEAD);
    say_numbers(out, step.stage, step.count, step.len);
}

fn fronius(out: Stdout, s: &[u8], held: &mut [u8], lent: &mut [u8]) {
    let step = fronius::step_in_place(
        byte_at(s, STAGE),
        size_at(s, COUNT),
        size_at(s, LEN),
        held,
        piece_of(s, NUMBERS),
        lent,
    );
    let answer = step.answer;
    say_head(out, fronius_head(answer, step.used), FRONIUS_HEAD);
    say_numbers(out, step.stage, step.count, step.len);
}

fn drives(out: Stdout, s: &[u8], held: &mut [u8], lent: &mut [u8]) {
    let step = drives::step_in_place(
        byte_at(s, STAGE),
        size_at(s, COUNT),
        held,
        piece_of(s, DRIVES_NUMBERS),
        lent,
    );
    let answer = step.answer;
    say_head(out, drives_head(answer, step.used), DRIVES_HEAD);
    say_counted(out, step.stage, step.count);
}

fn make(out: Stdout, op: u8, s: &[u8], held: &mut [u8], lent: &mut [u8]) {
    match op {
        0x07 => comlynx(out, s, held, lent),
        0x08 => eversolar(out, s, held, lent),
        0x09 => fronius(out, s, held, lent),
        _ => drives(out, s, held, lent),
    }
}

// How many bytes a result has up to the held bytes.
fn told_of(op: u8) -> usize {
    match op {
        0x07 => COMLYNX_HEAD + NUMBERS,
        0x08 => EVERSOLAR_HEAD + NUMBERS,
        0x09 => FRONIUS_HEAD + NUMBERS,
        _ => DRIVES_HEAD + DRIVES_NUMBERS,
    }
}

// How long the result is with what was held and what was lent.
fn length_of(told: usize, held: usize, lent: usize) -> usize {
    further(told, further(further(WORD, held), further(WORD, lent)))
}

// Lends the first `n` of the held bytes.
fn lend(out: Stdout, op: u8, s: &[u8], held: &mut [u8], n: usize, lent: &mut [u8]) {
    let to = least(n, held.len());
    make(out, op, s, &mut held[0..to], lent);
}

// The held bytes decide how long the result is, so that its length is put out here.
fn call_over(out: Stdout, op: u8, s: &[u8], first: &[u8], lent: &mut [u8]) {
    let mut held = [0u8; HELD_MAX];
    put(&mut held, 0, first);
    say_size(out, length_of(told_of(op), first.len(), lent.len()));
    lend(out, op, s, &mut held, first.len(), lent);
    say_list(out, part(&held, 0, first.len()));
}

pub(crate) fn call(out: Stdout, op: u8, s: &[u8], first: &[u8], lent: &mut [u8]) {
    call_over(out, op, s, part(first, 0, HELD_MAX), lent);
}
