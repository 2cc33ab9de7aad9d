// A day by slices. A frame may be cut where a slice ends. So the next slice begins behind the last answer, with all that the last one holds from there on,
// and no frame is lost at a cut. A slice that is full and gives no answer would come again and again: over it the streaming reader goes.
use crate::families::Family;
use crate::lines::print;
use crate::streams::stream;
use crate::window::{TURNS, Window, asked_from, before_the_day, next_slice};
use std::io::{Stdin, Stdout};
use test_parts::{further, part};

// Asks a slice from a place, and prints the line of the answer. Answers the place given with it, if there is an answer with a line. `day` is how many bytes
// of the day came before the slice.
fn ask<F: Family>(
    out: Stdout,
    slice: &[u8],
    at: usize,
    day: usize,
    lent: &mut [u8],
) -> Option<usize> {
    let asked = F::asked(slice, at, lent);
    print(out, further(day, asked.place), asked.told?, lent);
    Some(asked.place)
}

// One slice, asked from a place and then from each place given, until there is no answer with a line. Answers the last place given, or the first one asked
// from where there is none. Each place given is behind the one asked from, so that no slice has more answers than bytes.
fn slice_from<F: Family>(
    out: Stdout,
    slice: &[u8],
    place: usize,
    day: usize,
    lent: &mut [u8],
) -> usize {
    let mut at = place.min(slice.len());
    for _ in 0..slice.len() {
        let Some(next) = ask::<F>(out, slice, at, day, lent) else {
            break;
        };
        at = next;
    }
    at
}

// One slice. Where it is full and gives no answer, nothing of it would be moved, and the next one would be the same. There the streaming reader goes on
// from the slice's first byte, fresh, over the rest of the day up to its next answer, and slices begin again behind that. In ComLynx the slice's first byte
// is the flag before the place, so that it counts there too.
fn slice_on<F: Family>(
    stdin: Stdin,
    out: Stdout,
    buffer: &mut [u8],
    last: Window,
    lent: &mut [u8],
) -> Window {
    let w = next_slice(stdin, buffer, last, F::BACK);
    let place = slice_from::<F>(out, part(buffer, 0, w.len), w.place, w.day, lent);
    if (place == w.place) & !w.ended {
        return stream::<F>(stdin, out, buffer, asked_from(w, 0), true, lent);
    }
    asked_from(w, place)
}

// The whole day, slice by slice.
pub(crate) fn day_by_slices<F: Family>(
    stdin: Stdin,
    out: Stdout,
    buffer: &mut [u8],
    lent: &mut [u8],
) {
    let mut w = before_the_day();
    for _ in 0..TURNS {
        w = slice_on::<F>(stdin, out, buffer, w, lent);
        if w.ended {
            break;
        }
    }
}
