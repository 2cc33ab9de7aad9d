// Numbers and lists in a call's bytes, and putting bytes out. Every function here takes any index: a byte past the end reads as 0,
// and what does not fit is not put, so that no caller owes a proof.
use numbers::word;
use std::io::Stdout;
use test_parts::{byte_at, further, high, low, part};

// An index that no buffer here has.
pub(crate) const FAR: usize = 1000000;

// The longest list of a call.
const LIST_MAX: usize = 16384;

// How many bytes a word has. A list begins with its length as a word.
pub(crate) const WORD: usize = 2;

// How many bytes the largest numbers have.
pub(crate) const QUAD: usize = 8;

// A number of two bytes at an index, low byte first.
pub(crate) fn word_at(s: &[u8], at: usize) -> u16 {
    word(byte_at(s, further(at, 1)), byte_at(s, at))
}

fn quad(first: u16, second: u16, third: u16, fourth: u16) -> u64 {
    first as u64
        + 65536 * (second as u64)
        + 4294967296 * (third as u64)
        + 281474976710656 * (fourth as u64)
}

pub(crate) fn quad_at(s: &[u8], at: usize) -> u64 {
    quad(
        word_at(s, at),
        word_at(s, further(at, WORD)),
        word_at(s, further(at, 2 * WORD)),
        word_at(s, further(at, 3 * WORD)),
    )
}

pub(crate) fn size_at(s: &[u8], at: usize) -> usize {
    word_at(s, at) as usize
}

// The length of the list at an index. It is far too long where it is longer than a list may be.
pub(crate) fn list_size(s: &[u8], at: usize) -> usize {
    let n = size_at(s, at);
    if n > LIST_MAX {
        return FAR;
    }
    n
}

// The index behind the list at an index.
pub(crate) fn past_list(s: &[u8], at: usize) -> usize {
    further(further(at, WORD), list_size(s, at))
}

pub(crate) fn list_at(s: &[u8], at: usize) -> &[u8] {
    part(s, further(at, WORD), size_at(s, at))
}

// Puts bytes into a buffer, from an index on.
pub(crate) fn put(buffer: &mut [u8], at: usize, s: &[u8]) {
    if buffer.len() < at {
        return;
    }
    if buffer.len() - at < s.len() {
        return;
    }
    buffer[at..at + s.len()].copy_from_slice(s);
}

// Puts bytes out.
pub(crate) fn say(out: Stdout, s: &[u8]) {
    let _ = out.write_all(s);
}

pub(crate) fn say_size(out: Stdout, n: usize) {
    let size = [low(n), high(n)];
    say(out, &size);
}

// Puts out a list, its length first.
pub(crate) fn say_list(out: Stdout, s: &[u8]) {
    say_size(out, s.len());
    say(out, s);
}
