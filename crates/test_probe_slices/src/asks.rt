// One ask of a family's reader of slices, and one whole stretch judged. Each puts out all of its result: the length, what is told, and what was lent, as
// it is later.
use crate::answers_told;
use crate::answers_told::Told;
use crate::wire::{WORD, say, say_list, say_size};
use std::io::Stdout;
use test_parts::{further, part};

// How many bytes of fields a message of ComLynx has, of a stretch too.
const COMLYNX_FIELDS: usize = 7;

// Number, place and lost bytes stand before the fields; of a stretch no place does.
const FRONT: usize = 7;

const FRONT_OF_STRETCH: usize = 3;

// How long a result is, by what stands before what was lent.
fn say_length(out: Stdout, head: usize, lent: &[u8]) {
    say_size(out, further(head, further(WORD, lent.len())));
}

fn say_number(out: Stdout, number: u8) {
    let byte = [number];
    say(out, &byte);
}

// A number of four bytes.
fn say_place(out: Stdout, place: usize) {
    say_size(out, place % 65536);
    say_size(out, place / 65536 % 65536);
}

// What a family's reader of slices answers: a place, and what is told.
#[derive(Drop)]
pub(crate) struct Asked {
    place: usize,
    told: Told,
}

// A family, by its reader of slices and how many bytes of fields its message has.
pub(crate) trait Family {
    const FIELDS: usize;

    fn ask(slice: &[u8], place: usize, lent: &mut [u8]) -> Asked;
}

pub(crate) struct ComLynx;

impl Family for ComLynx {
    const FIELDS: usize = COMLYNX_FIELDS;

    fn ask(slice: &[u8], place: usize, lent: &mut [u8]) -> Asked {
        let found = comlynx::answer_at(slice, place, lent);
        Asked {
            place: found.place,
            told: answers_told::comlynx(found.answer),
        }
    }
}

pub(crate) struct Eversolar;

impl Family for Eversolar {
    const FIELDS: usize = 8;

    fn ask(slice: &[u8], place: usize, lent: &mut [u8]) -> Asked {
        let found = eversolar::answer_at(slice, place, lent);
        Asked {
            place: found.place,
            told: answers_told::eversolar(found.answer),
        }
    }
}

pub(crate) struct Fronius;

impl Family for Fronius {
    const FIELDS: usize = 5;

    fn ask(slice: &[u8], place: usize, lent: &mut [u8]) -> Asked {
        let found = fronius::answer_at(slice, place, lent);
        Asked {
            place: found.place,
            told: answers_told::fronius(found.answer),
        }
    }
}

pub(crate) struct Drives;

impl Family for Drives {
    const FIELDS: usize = 6;

    fn ask(slice: &[u8], place: usize, lent: &mut [u8]) -> Asked {
        let found = drives::answer_at(slice, place, lent);
        Asked {
            place: found.place,
            told: answers_told::drives(found.answer),
        }
    }
}

// Asks, and puts out what is told: its place too, and as many bytes of fields as the family has.
pub(crate) fn say_asked<F: Family>(out: Stdout, slice: &[u8], place: usize, lent: &mut [u8]) {
    let asked = F::ask(slice, place, lent);
    let told = asked.told;
    let fields = told.fields;
    say_length(out, further(FRONT, F::FIELDS), lent);
    say_number(out, told.number);
    say_place(out, asked.place);
    say_size(out, usize::from(told.lost));
    say(out, part(&fields, 0, F::FIELDS));
    say_list(out, lent);
}

// The whole slice as one stretch.
pub(crate) fn stretch_judged(out: Stdout, slice: &[u8], lent: &mut [u8]) {
    let told = answers_told::comlynx(comlynx::judge_stretch(slice, lent));
    let fields = told.fields;
    say_length(out, further(FRONT_OF_STRETCH, COMLYNX_FIELDS), lent);
    say_number(out, told.number);
    say_size(out, usize::from(told.lost));
    say(out, part(&fields, 0, COMLYNX_FIELDS));
    say_list(out, lent);
}

// The result of setting a slice: a length of 1, and the number 0.
pub(crate) fn say_set(out: Stdout) {
    say_size(out, 1);
    say_number(out, 0);
}
