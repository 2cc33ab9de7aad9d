// What a port's line carried that day.
use answers::{Refusal, written_length};
use test_parts::{COMLYNX, DRIVES, EVERSOLAR, FRONIUS, byte_at, further, part, size_at, word_at};

// Where a record of the day has what it says. First is its port. The writer is a family by its port, or 0 where nobody sent the bytes. The
// header has as many of its six bytes as the family needs. Then come the index of the byte that the line changed, and what it came out as. The
// payload stands behind its size.
const PORT: usize = 0;

const WRITER: usize = 1;

const HEADER: usize = 2;

const HEADER_SIZE: usize = 6;

const CHANGED: usize = 8;

const CAME_OUT: usize = 9;

const SIZE: usize = 10;

const PAYLOAD: usize = 11;

const PAYLOAD_MAX: usize = 255;

// The index of a record's changed byte where none is.
const UNCHANGED: usize = 255;

// More than there are records.
const RECORDS: usize = 400;

// Copies the bytes that nobody sent.
fn noise(payload: &[u8], room: &mut [u8]) -> Result<usize, Refusal> {
    let n = payload.len();
    let front = room.get_mut(..n).ok_or(Refusal::NoRoom)?;
    front.copy_from_slice(payload);
    Ok(n)
}

// Writes the message of a record by the writer of a family, or the bytes that nobody sent.
fn write(who: u8, header: &[u8], payload: &[u8], room: &mut [u8]) -> Result<usize, Refusal> {
    match who {
        COMLYNX => comlynx::write(
            word_at(header, 0),
            word_at(header, 2),
            byte_at(header, 4),
            payload,
            room,
        ),
        EVERSOLAR => eversolar::write(
            byte_at(header, 0),
            byte_at(header, 1),
            byte_at(header, 2),
            byte_at(header, 3),
            byte_at(header, 4),
            byte_at(header, 5),
            payload,
            room,
        ),
        FRONIUS => fronius::write(
            byte_at(header, 0),
            byte_at(header, 1),
            byte_at(header, 2),
            payload,
            room,
        ),
        DRIVES => drives::write(
            byte_at(header, 0),
            byte_at(header, 1),
            byte_at(header, 2),
            byte_at(header, 3),
            payload,
            room,
        ),
        _ => noise(payload, room),
    }
}

// Changes a byte, where there is one at the index.
fn change(line: &mut [u8], at: usize, to: u8) {
    if let Some(byte) = line.get_mut(at) {
        *byte = to;
    }
}

// Changes the byte that the line changed. The record's bytes stand on the line from an index on.
fn damage(line: &mut [u8], at: usize, record: &[u8]) {
    let changed = size_at(record, CHANGED);
    if changed == UNCHANGED {
        return;
    }
    change(line, further(at, changed), byte_at(record, CAME_OUT));
}

// Puts a record's bytes on the line, from an index on. Answers the index behind them.
fn put(line: &mut [u8], at: usize, record: &[u8]) -> usize {
    if line.len() < at {
        return at;
    }
    let written = write(
        byte_at(record, WRITER),
        part(record, HEADER, HEADER_SIZE),
        part(record, PAYLOAD, PAYLOAD_MAX),
        &mut line[at..],
    );
    let n = written_length(written);
    damage(line, at, record);
    further(at, n)
}

// Puts the records of one port alone.
fn put_for(port: u8, line: &mut [u8], at: usize, record: &[u8]) -> usize {
    if byte_at(record, PORT) != port {
        return at;
    }
    put(line, at, record)
}

// Puts what a port carried that day on its line. Answers how many bytes there are.
pub(crate) fn fill(line: &mut [u8], day: &[u8], port: u8) -> usize {
    let mut at = 0;
    let mut next = 0;
    for _ in 0..RECORDS {
        let size = further(PAYLOAD, size_at(day, further(next, SIZE)));
        at = put_for(port, line, at, part(day, next, size));
        next = further(next, size);
    }
    at
}
