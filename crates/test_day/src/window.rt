// What is at hand of the day: its bytes are at the front of a buffer, which is the slice that is asked.
use crate::input::read_full;
use std::io::Stdin;
use test_parts::{further, part};

// How many turns a loop over the day takes at most, which only shows that it ends: no day has so many slices or pieces.
pub(crate) const TURNS: u64 = u64::MAX;

#[derive(Clone, Copy)]
pub(crate) struct Window {
    // how many bytes of the day came before the buffer's first
    pub(crate) day: usize,
    // how many bytes are at hand
    pub(crate) len: usize,
    // the place in the buffer that is asked from next: behind the last answer
    pub(crate) place: usize,
    // whether no more is to come
    pub(crate) ended: bool,
}

// Before the first read.
pub(crate) fn before_the_day() -> Window {
    Window {
        day: 0,
        len: 0,
        place: 0,
        ended: false,
    }
}

// The same bytes, asked from another place.
pub(crate) fn asked_from(w: Window, place: usize) -> Window {
    Window { place, ..w }
}

// What is at hand from the place on.
pub(crate) fn at_hand(buffer: &[u8], w: Window) -> &[u8] {
    part(part(buffer, 0, w.len), w.place, w.len)
}

// So many bytes from the place on are used.
pub(crate) fn used_on(w: Window, used: usize) -> Window {
    let place = further(w.place, used);
    asked_from(w, place)
}

// The place, counted from the day's first byte.
pub(crate) fn place_in_day(w: Window) -> usize {
    further(w.day, w.place)
}

// The next slice: what stands behind the last answer is moved to the buffer's front, and the buffer is filled up. Of the bytes before that place so many
// are kept as count for the next answer, and the slice is asked from behind them. A buffer that is not full is the day's end, since a read stops short
// of its buffer only there.
pub(crate) fn next_slice(mut stdin: Stdin, buffer: &mut [u8], w: Window, back: usize) -> Window {
    let to = w.len.min(buffer.len());
    let place = w.place.min(to);
    let kept = back.min(place);
    let from = place - kept;
    buffer.copy_within(from..to, 0);
    let n = to - from;
    let len = n + read_full(&mut stdin, &mut buffer[n..]);
    Window {
        day: further(w.day, from),
        len,
        place: kept,
        ended: len < buffer.len(),
    }
}

// The next bytes of the day, where all that are at hand are used up.
fn next_bytes(mut stdin: Stdin, buffer: &mut [u8], w: Window) -> Window {
    let len = read_full(&mut stdin, buffer);
    Window {
        day: further(w.day, w.len),
        len,
        place: 0,
        ended: len == 0,
    }
}

// After a call of the streaming reader: behind an answer there may be more in what is at hand; without one it is used up.
pub(crate) fn after_call(stdin: Stdin, buffer: &mut [u8], w: Window, answered: bool) -> Window {
    if answered {
        return w;
    }
    next_bytes(stdin, buffer, w)
}
