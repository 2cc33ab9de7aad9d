// The calls of the lines of text, of all ports and of a listing: the bytes of each, and of its result.
use crate::session::{Shape, unlisted};
use crate::states::{COMLYNX_STATE, DRIVES_STATE, EVERSOLAR_STATE, FRONIUS_STATE};
use crate::wire::QUAD;

// Where the state of all ports ends, and that of a listing.
pub(crate) const PORTS_STATE: usize = COMLYNX_STATE
    + EVERSOLAR_STATE
    + FRONIUS_STATE
    + DRIVES_STATE;

pub(crate) const LISTING_STATE: usize = PORTS_STATE + 3 * QUAD;

// Who makes a call.
pub(crate) const FRESH: u8 = 1;

pub(crate) const SIDES: u8 = 2;

pub(crate) const PACKETS: u8 = 3;

pub(crate) const TEXTS: u8 = 4;

// A call that reads from a state on. It has a piece and a lent list.
fn reader(who: u8, front: usize, state: usize, head: usize) -> Shape {
    Shape {
        who,
        front,
        lists: 2,
        between: 0,
        head,
        state,
        lent: 2,
    }
}

// A call that gives a fresh state.
fn fresh(state: usize) -> Shape {
    Shape {
        who: FRESH,
        front: 0,
        lists: 0,
        between: 0,
        head: 1,
        state,
        lent: 0,
    }
}

// A call that writes a line into the last of its lists and tells its length.
fn line(front: usize, lists: u8) -> Shape {
    Shape {
        who: TEXTS,
        front,
        lists,
        between: 0,
        head: 3,
        state: 0,
        lent: lists,
    }
}

pub(crate) fn shape_of(op: u8) -> Shape {
    match op {
        0x81 => line(0, 1),
        0x83 => line(4, 1),
        0x84 => line(1, 1),
        0x85 => line(16, 1),
        0x86 => fresh(PORTS_STATE),
        0x87 => reader(SIDES, PORTS_STATE + 1, PORTS_STATE, 0),
        0x88 => fresh(LISTING_STATE),
        0x89 => reader(PACKETS, LISTING_STATE + 1, LISTING_STATE, 6),
        0x8a => line(6, 2),
        0x8b => line(7, 2),
        0x8c => line(4, 2),
        0x8d => line(5, 2),
        _ => unlisted(),
    }
}
