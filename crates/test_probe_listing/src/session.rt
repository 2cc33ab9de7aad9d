// The bytes of a call and of its result: reading the one, and putting out of the other what every result has. A program's own modules say the rest:
// `shapes` which calls it knows, `calls` who makes each.
use crate::input::read_full;
use crate::wire::{FAR, WORD, list_at, list_size, past_list, put, say_list, say_size};
use numbers::least;
use std::io::{Stdin, Stdout};
use test_parts::further;

// The bytes of a call and of its result.
#[derive(Clone, Copy)]
pub(crate) struct Shape {
    // who makes it
    pub(crate) who: u8,
    // how many bytes it has between its opcode and its lists
    pub(crate) front: usize,
    // how many lists it has, three at most
    pub(crate) lists: u8,
    // how many bytes it has behind its first list
    pub(crate) between: usize,
    // how many bytes of head its result has, or 0 where who makes it puts out the result's length too
    pub(crate) head: usize,
    // how many bytes of state its result has
    pub(crate) state: usize,
    // which of its lists it lends, counted from 1, or 0 where it lends none; the result ends with that list as it is then
    pub(crate) lent: u8,
}

// A call that is not listed has more bytes than there are.
pub(crate) fn unlisted() -> Shape {
    Shape {
        who: 0,
        front: FAR,
        lists: 0,
        between: 0,
        head: 0,
        state: 0,
        lent: 0,
    }
}

// Reads so many bytes from an index on. Answers the index behind them, far away where they are not all there.
pub(crate) fn read_on(mut stdin: Stdin, call: &mut [u8], at: usize, n: usize) -> usize {
    if n == 0 {
        return at;
    }
    if call.len() < at {
        return FAR;
    }
    let to = least(further(at, n), call.len());
    if read_full(&mut stdin, &mut call[at..to]) < n {
        return FAR;
    }
    to
}

// Reads a list from an index on, where there is one.
fn read_list(stdin: Stdin, call: &mut [u8], at: usize, there: bool) -> usize {
    if !there {
        return at;
    }
    let next = read_on(stdin, call, at, WORD);
    read_on(stdin, call, next, list_size(call, at))
}

// Reads a call behind its opcode, as far as its second list.
fn read_front(stdin: Stdin, call: &mut [u8], next: usize, shape: Shape) -> usize {
    let next = read_on(stdin, call, next, shape.front);
    let next = read_list(stdin, call, next, shape.lists > 0);
    read_on(stdin, call, next, shape.between)
}

// Reads a call behind its opcode. Answers the call's length, far more than there is room for where it is not whole.
pub(crate) fn read_rest(stdin: Stdin, call: &mut [u8], next: usize, shape: Shape) -> usize {
    let lists = shape.lists;
    let next = read_front(stdin, call, next, shape);
    let next = read_list(stdin, call, next, lists > 1);
    read_list(stdin, call, next, lists > 2)
}

// Where a call has the list that it lends, if it lends one.
fn lent_at(s: &[u8], shape: Shape) -> usize {
    let first = further(1, shape.front);
    let which = shape.lent;
    if which < 2 {
        return first;
    }
    let second = further(past_list(s, first), shape.between);
    if which == 2 {
        return second;
    }
    past_list(s, second)
}

// The first list of a call.
pub(crate) fn first_of(s: &[u8], shape: Shape) -> &[u8] {
    list_at(s, further(1, shape.front))
}

// The list that a call lends, as it is before the call.
pub(crate) fn lent_of(s: &[u8], shape: Shape) -> &[u8] {
    list_at(s, lent_at(s, shape))
}

// Puts out what a call was lent, as it is later, where it was lent something.
pub(crate) fn say_lent(out: Stdout, lent: &[u8], which: u8) {
    if which == 0 {
        return;
    }
    say_list(out, lent);
}

// How many bytes a result has behind its head and its state.
fn lent_size(n: usize, which: u8) -> usize {
    if which == 0 {
        return 0;
    }
    further(WORD, n)
}

// Puts out a result's length, where it is known before the call is made.
fn say_length(out: Stdout, head: usize, n: usize) {
    if head == 0 {
        return;
    }
    say_size(out, further(head, n));
}

// Puts a list into the buffer that is lent, and the result's length out.
pub(crate) fn lend(out: Stdout, list: &[u8], lent: &mut [u8], shape: Shape) {
    say_length(
        out,
        shape.head,
        further(shape.state, lent_size(list.len(), shape.lent)),
    );
    put(lent, 0, list);
}
