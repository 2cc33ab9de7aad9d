// The writer: one message as the bytes of a frame.
ghost use Rattle.std.specs.Prelude.{◌+◌, ◌≤◌, ◌≡◌, [], ◌∷◌, length};
ghost use Rattle.std.proofs.lemmas.List.Edits.{sets};
ghost use Rattle.comlynx.specs.Wire.{payload_max, lead, stuffed};
ghost use Rattle.comlynx.specs.Writer.{IsWritten};
ghost use Rattle.comlynx.specs.Inside.{Stuffs, framed};

use crate::checksum;
use crate::reader::{ESCAPE, ESCAPE_PAIR, FIRST, FLAG, FLAG_PAIR, Reader, SECOND};
use answers::Refusal;

// All that stands before the data.
fn lead_of(source: u16, destination: u16, size: u8, kind: u8) -> [u8; Reader::HEADER]
    ensures { result ≡ lead source destination size kind }
{
    let [from_high, from_low] = source.to_be_bytes();
    let [to_high, to_low] = destination.to_be_bytes();
    [
        FIRST, SECOND, from_high, from_low, to_high, to_low, size, kind,
    ]
}

// How many bytes a byte takes, stuffed.
fn width(b: u8) -> u16
    ensures { result ≡ length (stuffed (b ∷ [])) }
{
    if (b == FLAG) | (b == ESCAPE) { 2 } else { 1 }
}

// How many bytes a body's part takes, stuffed. Counted in 16 bits, so that eight bytes are looked at together.
fn stuffed_len(s: &[u8]) -> usize
    requires { length s.now ≤ payload_max }
    ensures { (result ≡ length (stuffed s.now)) × (result ≤ 510) }
{
    let mut n: u16 = 0;
    for b in s {
        n += width(*b);
    }
    usize::from(n)
}

// Stores a byte, stuffed; gives the index after it.
fn put(b: u8, lent: &mut [u8], at: usize) -> usize
    requires { at + length (stuffed (b ∷ [])) ≤ length lent.old }
    ensures { Stuffs (b ∷ []) at lent.old result lent.new }
{
    if b == FLAG {
        lent[at] = ESCAPE;
        lent[at + 1] = FLAG_PAIR;
        return at + 2;
    }
    if b == ESCAPE {
        lent[at] = ESCAPE;
        lent[at + 1] = ESCAPE_PAIR;
        return at + 2;
    }
    lent[at] = b;
    at + 1
}

// Stores bytes, stuffed, from `at` on; gives the index after them.
fn put_stuffed(s: &[u8], lent: &mut [u8], at: usize) -> usize
    requires { at + length (stuffed s.now) ≤ length lent.old }
    ensures { Stuffs s.now at lent.old result lent.new }
{
    let mut to = at;
    for b in s {
        to = put(*b, lent, to);
    }
    to
}

// Stores a frame: flag, the body's three parts stuffed, flag.
fn put_frame(first: &[u8], payload: &[u8], last: &[u8], lent: &mut [u8])
    requires { length (framed first.now payload.now last.now) ≤ length lent.old }
    ensures { lent.new ≡ sets lent.old 0 (framed first.now payload.now last.now) }
{
    lent[0] = FLAG;
    let a = put_stuffed(first, lent, 1);
    let b = put_stuffed(payload, lent, a);
    let c = put_stuffed(last, lent, b);
    lent[c] = FLAG;
}

// Writes a message at the front of `lent`. Nothing is stored before both tests have held. The checksum is asked for here; its own bytes may take
// stuffing too, so it comes before the test of the room.
pub fn write(
    source: u16,
    destination: u16,
    kind: u8,
    payload: &[u8],
    lent: &mut [u8],
) -> Result<usize, Refusal>
    ensures { IsWritten source destination kind payload.now lent.old result lent.new }
{
    let n = payload.len();
    if Reader::PAYLOAD < n {
        return Err(Refusal::TooLong);
    }
    let first = lead_of(source, destination, n as u8, kind);
    let sum = checksum::of_both(&first, payload);
    let due = checksum::sent_of(sum);
    let last = [due.low, due.high];
    let body = stuffed_len(&first) + stuffed_len(payload) + stuffed_len(&last);
    let length = body + 2;
    if lent.len() < length {
        return Err(Refusal::NoRoom);
    }
    put_frame(&first, payload, &last, lent);
    Ok(length)
}
