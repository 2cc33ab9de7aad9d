// The calls that are neither a reader's nor the listing's: the bytes of each, and of its result.
use crate::session::{Shape, unlisted};

// Who makes a call.
pub(crate) const VALUES: u8 = 1;

pub(crate) const WRITERS: u8 = 2;

pub(crate) const ROSTERS: u8 = 3;

// A call that writes into the last of its lists and tells a length.
fn written(front: usize, lists: u8, between: usize) -> Shape {
    Shape {
        who: WRITERS,
        front,
        lists,
        between,
        head: 3,
        state: 0,
        lent: lists,
    }
}

// A call over a roster. The first of its lists is the roster, which it lends.
fn roster(lists: u8, between: usize, head: usize) -> Shape {
    Shape {
        who: ROSTERS,
        front: 0,
        lists,
        between,
        head,
        state: 0,
        lent: 1,
    }
}

// A call that lends nothing.
fn value(front: usize, lists: u8, head: usize) -> Shape {
    Shape {
        who: VALUES,
        front,
        lists,
        between: 0,
        head,
        state: 0,
        lent: 0,
    }
}

// The calls by the first hexadecimal digit of their opcodes, so that no function has to tell many apart.
fn writing(op: u8) -> Shape {
    match op {
        0x11 => written(5, 2, 0),
        0x12 => written(6, 2, 0),
        0x13 => written(3, 2, 0),
        0x14 => written(4, 2, 0),
        _ => unlisted(),
    }
}

fn comlynx_or_drives_meaning(op: u8) -> Shape {
    match op {
        0x21 => value(1, 1, 4),
        0x22 => value(2, 0, 4),
        0x23 => value(3, 0, 3),
        0x24 => value(3, 0, 2),
        _ => unlisted(),
    }
}

fn eversolar_meaning(op: u8) -> Shape {
    match op {
        0x31 => written(1, 1, 0),
        0x32 => written(2, 1, 0),
        0x33 => written(0, 2, 1),
        0x34 => value(2, 1, 5),
        0x35 => value(9, 0, 9),
        0x36 => value(2, 0, 3),
        0x37 => value(2, 0, 3),
        _ => unlisted(),
    }
}

fn fronius_meaning(op: u8) -> Shape {
    match op {
        0x41 => value(1, 1, 9),
        0x42 => value(2, 1, 10),
        _ => unlisted(),
    }
}

fn rostering(op: u8) -> Shape {
    match op {
        0x51 => roster(2, 0, 2),
        0x52 => roster(1, 1, 1),
        0x53 => roster(2, 0, 2),
        0x54 => roster(2, 0, 2),
        0x55 => roster(1, 1, 1),
        0x56 => roster(2, 0, 2),
        _ => unlisted(),
    }
}

fn packing(op: u8) -> Shape {
    match op {
        0x61 => value(0, 1, 5),
        0x62 => written(1, 2, 0),
        _ => unlisted(),
    }
}

fn summing(op: u8) -> Shape {
    match op {
        0x71 => value(0, 1, 3),
        0x72 => value(2, 1, 3),
        0x73 => value(2, 0, 3),
        0x74 => value(2, 1, 3),
        0x75 => value(0, 2, 3),
        0x76 => value(0, 1, 3),
        0x77 => value(2, 1, 3),
        0x78 => value(2, 1, 3),
        0x79 => value(0, 2, 3),
        _ => unlisted(),
    }
}

pub(crate) fn shape_of(op: u8) -> Shape {
    match op / 16 {
        1 => writing(op),
        2 => comlynx_or_drives_meaning(op),
        3 => eversolar_meaning(op),
        4 => fronius_meaning(op),
        5 => rostering(op),
        6 => packing(op),
        7 => summing(op),
        _ => unlisted(),
    }
}
