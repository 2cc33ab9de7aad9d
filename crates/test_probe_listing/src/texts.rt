// The lines of a listing.
use crate::heads::{say_head, told};
use crate::wire::{list_at, quad_at, word_at};
use answers::{Refusal, written_length, written_number};
use std::io::Stdout;
use test_parts::byte_at;

// The line of a message whose from, to and code have 2, 2 and 1 bytes.
fn of_2_2_1(s: &[u8], lent: &mut [u8]) -> Result<usize, Refusal> {
    listing_text::message_2_2_1(
        byte_at(s, 1),
        byte_at(s, 2),
        byte_at(s, 3),
        byte_at(s, 4),
        byte_at(s, 5),
        byte_at(s, 6),
        list_at(s, 7),
        lent,
    )
}

// 2, 2 and 2 bytes.
fn of_2_2_2(s: &[u8], lent: &mut [u8]) -> Result<usize, Refusal> {
    listing_text::message_2_2_2(
        byte_at(s, 1),
        byte_at(s, 2),
        byte_at(s, 3),
        byte_at(s, 4),
        byte_at(s, 5),
        byte_at(s, 6),
        byte_at(s, 7),
        list_at(s, 8),
        lent,
    )
}

// None, 2 and 1.
fn of_0_2_1(s: &[u8], lent: &mut [u8]) -> Result<usize, Refusal> {
    listing_text::message_0_2_1(
        byte_at(s, 1),
        byte_at(s, 2),
        byte_at(s, 3),
        byte_at(s, 4),
        list_at(s, 5),
        lent,
    )
}

// 1, 2 and 1.
fn of_1_2_1(s: &[u8], lent: &mut [u8]) -> Result<usize, Refusal> {
    listing_text::message_1_2_1(
        byte_at(s, 1),
        byte_at(s, 2),
        byte_at(s, 3),
        byte_at(s, 4),
        byte_at(s, 5),
        list_at(s, 6),
        lent,
    )
}

fn message(op: u8, s: &[u8], lent: &mut [u8]) -> Result<usize, Refusal> {
    match op {
        0x8a => of_2_2_1(s, lent),
        0x8b => of_2_2_2(s, lent),
        0x8c => of_0_2_1(s, lent),
        _ => of_1_2_1(s, lent),
    }
}

fn write(op: u8, s: &[u8], lent: &mut [u8]) -> Result<usize, Refusal> {
    match op {
        0x81 => listing_text::title(lent),
        0x83 => listing_text::damage(byte_at(s, 1), byte_at(s, 2), word_at(s, 3), lent),
        0x84 => listing_text::stop(byte_at(s, 1), lent),
        0x85 => listing_text::end(quad_at(s, 1), quad_at(s, 9), lent),
        _ => message(op, s, lent),
    }
}

pub(crate) fn say_line(out: Stdout, op: u8, s: &[u8], lent: &mut [u8], head: usize) {
    let written = write(op, s, lent);
    let length = written_length(written);
    say_head(out, told(written_number(written), length as u64), head);
}
