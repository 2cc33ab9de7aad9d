// The calls of the readers of one family: the bytes of each, and of its result.
use crate::session::{Shape, unlisted};
use crate::states::{
    COMLYNX_STATE, DRIVES_NUMBERS, DRIVES_STATE, EVERSOLAR_STATE, FRONIUS_STATE, NUMBERS,
};

// How many bytes are told of a reader's answer.
pub(crate) const COMLYNX_HEAD: usize = 12;

pub(crate) const EVERSOLAR_HEAD: usize = 13;

pub(crate) const FRONIUS_HEAD: usize = 10;

pub(crate) const DRIVES_HEAD: usize = 11;

// Who makes a call.
pub(crate) const COMLYNX: u8 = 1;

pub(crate) const EVERSOLAR: u8 = 2;

pub(crate) const FRONIUS: u8 = 3;

pub(crate) const DRIVES: u8 = 4;

pub(crate) const FRESH: u8 = 5;

pub(crate) const IN_PLACE: u8 = 6;

// A call that reads from a state on. It has a piece and a lent list.
fn reader(who: u8, front: usize, state: usize, head: usize) -> Shape {
    Shape {
        who,
        front,
        lists: 2,
        between: 0,
        head,
        state,
        lent: 2,
    }
}

// A call that gives a fresh state.
fn fresh(state: usize) -> Shape {
    Shape {
        who: FRESH,
        front: 0,
        lists: 0,
        between: 0,
        head: 1,
        state,
        lent: 0,
    }
}

// A call that reads over held bytes that it lends too, the first of its lists. It has a piece and a lent list, and its numbers stand in front.
fn in_place(front: usize) -> Shape {
    Shape {
        who: IN_PLACE,
        front,
        lists: 3,
        between: 0,
        head: 0,
        state: 0,
        lent: 3,
    }
}

pub(crate) fn shape_of(op: u8) -> Shape {
    match op {
        0x01 => reader(COMLYNX, COMLYNX_STATE, COMLYNX_STATE, COMLYNX_HEAD),
        0x02 => reader(EVERSOLAR, EVERSOLAR_STATE, EVERSOLAR_STATE, EVERSOLAR_HEAD),
        0x03 => reader(FRONIUS, FRONIUS_STATE, FRONIUS_STATE, FRONIUS_HEAD),
        0x04 => fresh(COMLYNX_STATE),
        0x05 => fresh(EVERSOLAR_STATE),
        0x06 => fresh(FRONIUS_STATE),
        0x07 => in_place(NUMBERS),
        0x08 => in_place(NUMBERS),
        0x09 => in_place(NUMBERS),
        0x0a => reader(DRIVES, DRIVES_STATE, DRIVES_STATE, DRIVES_HEAD),
        0x0b => fresh(DRIVES_STATE),
        0x0c => in_place(DRIVES_NUMBERS),
        _ => unlisted(),
    }
}
