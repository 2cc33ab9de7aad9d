// A day by the streaming reader.
use crate::families::Family;
use crate::lines::print;
use crate::window::{TURNS, Window, after_call, at_hand, place_in_day, used_on};
use std::io::{Stdin, Stdout};

// The streaming reader, fresh, from the place of a window on: over what is at hand, and then over the rest of the day in pieces as long as the buffer,
// each called on until it is used up. Prints the line of each answer. Where only one is wanted, it stops there, and the window is to be asked from
// behind that answer.
pub(crate) fn stream<F: Family>(
    stdin: Stdin,
    out: Stdout,
    buffer: &mut [u8],
    mut w: Window,
    one: bool,
    lent: &mut [u8],
) -> Window {
    let mut reader = F::first();
    for _ in 0..TURNS {
        let s = reader.stepped(at_hand(buffer, w), lent);
        reader = s.reader;
        w = used_on(w, s.used);
        if let Some(told) = s.told {
            print(out, place_in_day(w), told, lent);
            if one {
                return w;
            }
        }
        w = after_call(stdin, buffer, w, s.told.is_some());
        if w.ended {
            return w;
        }
    }
    w
}
