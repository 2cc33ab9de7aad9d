// Runs the published examples through reader and writer. Standard input is records, each a printed frame and what its document says that it is
// (tests/published-frames makes them). Prints a line for each: document, the frame's number there, the answer, what was read, the verdict.
#![tactic(auto)]

mod families;
mod input;

use answers::written_length;
use families::{MESSAGE, READ, read, write};
use input::read_full;
use std::io::Stdout;
use test_parts::{COMLYNX, DRIVES, EVERSOLAR, FRONIUS, LARGE, byte_at, part, size_at};

// A record has a front, then room for a payload and room for a frame.
const FRONT: usize = 13;

const PAYLOAD: usize = 48;

const FRAME: usize = 64;

const RECORD: usize = FRONT + PAYLOAD + FRAME;

// Where the front has the document, the frame's number in it, what is to be read (as `families` tells it, so that it says how many bytes of the
// payload and of the frame count), and how many of the frame's bytes are printed.
const DOCUMENT: usize = 0;

const NUMBER: usize = 1;

const TO_READ: usize = 2;

const PRINTED: usize = 12;

// Where what is read has its parts. From, to and code are two bytes each, one behind the other.
const ANSWER: usize = 0;

const FROM: usize = 1;

const TO: usize = 3;

const CODE: usize = 5;

const PAYLOAD_SIZE: usize = 7;

const LOST: usize = 8;

const USED: usize = 9;

const PAIR: usize = 2;

const HEADER: usize = 3 * PAIR;

// What every reader is to be lent.
const LENT: usize = 255;

// How many records are read at most.
const RECORDS: usize = 1000;

fn payload_of(record: &[u8]) -> &[u8] {
    part(record, FRONT, size_at(record, TO_READ + PAYLOAD_SIZE))
}

fn frame_of(record: &[u8]) -> &[u8] {
    part(record, FRONT + PAYLOAD, size_at(record, TO_READ + USED))
}

// Whether what was read is what the document says, with its payload.
fn reads(record: &[u8], got: &[u8], lent: &[u8]) -> bool {
    let payload = payload_of(record);
    (got == part(record, TO_READ, READ)) & (part(lent, 0, payload.len()) == payload)
}

// Whether a message is written as the frame: all of its length, and its bytes as far as they are printed.
fn writes(record: &[u8], again: &[u8]) -> bool {
    let frame = frame_of(record);
    let printed = size_at(record, PRINTED);
    (again.len() == frame.len()) & (part(again, 0, printed) == part(frame, 0, printed))
}

fn print(out: Stdout, text: &[u8]) {
    let _ = out.write_all(text);
}

fn print_number(out: Stdout, n: u8) {
    let _ = print!(out; "{n}");
    print(out, b" ");
}

// Bytes in hex.
fn print_bytes(out: Stdout, s: &[u8]) {
    for b in s {
        let _ = print!(out; "{b:02x}");
    }
    print(out, b" ");
}

// A payload in hex, `-` where it is empty.
fn print_payload(out: Stdout, s: &[u8]) {
    if s.is_empty() {
        print(out, b"- ");
    } else {
        print_bytes(out, s);
    }
}

// From, to, code and payload of a message; of anything else how many bytes were lost.
fn print_read(out: Stdout, got: &[u8], lent: &[u8]) {
    if byte_at(got, ANSWER) != MESSAGE {
        print_number(out, byte_at(got, LOST));
        return;
    }
    print_bytes(out, part(got, FROM, PAIR));
    print_bytes(out, part(got, TO, PAIR));
    print_bytes(out, part(got, CODE, PAIR));
    print_payload(out, part(lent, 0, size_at(got, PAYLOAD_SIZE)));
}

// Whether a record of that answer is read and, where that is a message, written as its document says.
fn agrees(reads: bool, writes: bool, answer: u8) -> bool {
    reads & (writes | (answer != MESSAGE))
}

fn print_verdict(out: Stdout, agrees: bool, answer: u8) {
    let verdict = match (agrees, answer) {
        (false, _) => b"differs\n".as_slice(),
        (true, MESSAGE) => b"ok\n".as_slice(),
        (true, _) => b"damaged\n".as_slice(),
    };
    print(out, verdict);
}

// The line of a record, of which `got` was read, its payload in `lent`, and `again` was written.
fn report(out: Stdout, record: &[u8], got: &[u8], lent: &[u8], again: &[u8]) {
    print(out, b"00");
    print_number(out, byte_at(record, DOCUMENT));
    print_number(out, byte_at(record, NUMBER));
    print_number(out, byte_at(got, ANSWER));
    print_read(out, got, lent);
    let answer = byte_at(record, TO_READ);
    print_verdict(
        out,
        agrees(reads(record, got, lent), writes(record, again), answer),
        answer,
    );
}

// The port that has the family of a document.
fn port_of(document: u8) -> u8 {
    match document {
        0 => COMLYNX,
        1 => EVERSOLAR,
        2 => FRONIUS,
        _ => DRIVES,
    }
}

// Reads the frame and writes the message of a record. No frame has the number 0: behind the records there is nothing to try.
fn try_record(out: Stdout, record: &[u8]) {
    if byte_at(record, NUMBER) == 0 {
        return;
    }
    let mut lent = [0u8; LENT];
    let mut again = [0u8; LENT];
    let port = port_of(byte_at(record, DOCUMENT));
    let got = read(port, frame_of(record), &mut lent);
    let written = write(
        port,
        part(record, TO_READ + FROM, HEADER),
        payload_of(record),
        &mut again,
    );
    let n = written_length(written);
    report(out, record, &got, &lent, part(&again, 0, n));
}

fn main(rt: HostRuntime) {
    let mut input = [0u8; LARGE];
    read_full(&mut rt.stdin(), &mut input);
    for record in input.chunks(RECORD).take(RECORDS) {
        try_record(rt.stdout(), record);
    }
}
