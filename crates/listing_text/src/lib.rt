// The text of each line of a listing, written at the front of a lent buffer.
#![tactic(auto)]

ghost use Rattle.listing_text.specs.Lines.{decimal, field_max, shown, IsTitle, IsMessage, IsDamage, IsStop, IsEnd};
ghost use Rattle.listing_text.specs.Inside.{width_max, line_length, refused_for, start, before_code, Put};
ghost use Rattle.std.specs.Prelude.{◌+◌, ◌*◌, ◌≤◌, ◌≡◌, ◌||◌, [], ◌∷◌, ltb, length};

use crate::decimal::{places, put_number};
use crate::hex::{put_field, put_none, put_one, put_two, width};
use answers::Refusal;

mod decimal;
mod hex;

// The header: what stands in each field of a line.
const TITLE: [u8; 30] = *b"port answer from to code data\n";

// The words that the last lines begin with.
const STOP: [u8; 5] = *b"stop ";

const END: [u8; 4] = *b"end ";

// No list that a listing shows is longer.
pub const FIELD_MAX: usize = 255;

// No line of a message is longer.
const LINE_MAX: usize = 2054;

// Writes the header.
pub fn title(lent: &mut [u8]) -> Result<usize, Refusal>
    ensures { IsTitle lent.old result lent.new }
{
    if lent.len() < TITLE.len() {
        return Err(Refusal::NoRoom);
    }
    lent[..TITLE.len()].copy_from_slice(&TITLE);
    Ok(TITLE.len())
}

// Whether a line is refused whose first three fields take `three` bytes, and whose data have `n`. Where there is room for any
// line, its length is not needed.
fn is_refused(port: u8, three: usize, n: usize, room: usize) -> bool
    requires { three ≤ 3 * width_max }
    ensures { result ≡ (ltb field_max n || ltb room (line_length port three n)) }
{
    if FIELD_MAX < n {
        return true;
    }
    if LINE_MAX <= room {
        return false;
    }
    room < places(port as u64) + three + width(n) + 7
}

// What it is refused with.
fn refusal(n: usize) -> Result<usize, Refusal>
    ensures { result ≡ refused_for (ltb field_max n) }
{
    if FIELD_MAX < n {
        return Err(Refusal::TooLong);
    }
    Err(Refusal::NoRoom)
}

// What stands before the four lists: the port, and 1, the answer that a message read is.
fn put_start(port: u8, lent: &mut [u8]) -> usize
    requires { length (decimal port) + 3 ≤ length lent.old }
    ensures put { Put lent.old 0 (start port) result lent.new }
    ensures value { result ≡ length (decimal port) + 3 }
{
    let p = put_number(port as u64, b' ', lent, 0);
    lent[p] = b'1';
    lent[p + 1] = b' ';
    p + 2
}

// What stands before the code: from and to have two bytes each, or from has none and to has two, or from has one and to has two.
fn put_2_2(port: u8, from1: u8, from2: u8, to1: u8, to2: u8, lent: &mut [u8]) -> usize
    requires { length (decimal port) + 13 ≤ length lent.old }
    ensures put { Put lent.old 0 (before_code port (from1 ∷ from2 ∷ []) (to1 ∷ to2 ∷ [])) result lent.new }
    ensures value { result ≡ length (decimal port) + 13 }
{
    let p = put_start(port, lent);
    let q = put_two(from1, from2, lent, p);
    put_two(to1, to2, lent, q)
}

fn put_0_2(port: u8, to1: u8, to2: u8, lent: &mut [u8]) -> usize
    requires { length (decimal port) + 10 ≤ length lent.old }
    ensures put { Put lent.old 0 (before_code port [] (to1 ∷ to2 ∷ [])) result lent.new }
    ensures value { result ≡ length (decimal port) + 10 }
{
    let p = put_start(port, lent);
    let q = put_none(b' ', lent, p);
    put_two(to1, to2, lent, q)
}

fn put_1_2(port: u8, from: u8, to1: u8, to2: u8, lent: &mut [u8]) -> usize
    requires { length (decimal port) + 11 ≤ length lent.old }
    ensures put { Put lent.old 0 (before_code port (from ∷ []) (to1 ∷ to2 ∷ [])) result lent.new }
    ensures value { result ≡ length (decimal port) + 11 }
{
    let p = put_start(port, lent);
    let q = put_one(from, lent, p);
    put_two(to1, to2, lent, q)
}

// Writes the line of a message that came from `port`, where from, to and code have 2, 2 and 1 bytes. There is a function for each
// shape, so that the compiler knows the lengths; with one caller it is inlined there. Nothing is stored before the test has held.
pub fn message_2_2_1(
    port: u8,
    from1: u8,
    from2: u8,
    to1: u8,
    to2: u8,
    code: u8,
    payload: &[u8],
    lent: &mut [u8],
) -> Result<usize, Refusal>
    ensures { IsMessage port (shown (from1 ∷ from2 ∷ []) (to1 ∷ to2 ∷ []) (code ∷ []) payload.now) lent.old result lent.new }
{
    if is_refused(port, 10, payload.len(), lent.len()) {
        return refusal(payload.len());
    }
    let p = put_2_2(port, from1, from2, to1, to2, lent);
    let q = put_one(code, lent, p);
    Ok(put_field(payload, b'\n', lent, q))
}

// The same where they have 2, 2 and 2.
pub fn message_2_2_2(
    port: u8,
    from1: u8,
    from2: u8,
    to1: u8,
    to2: u8,
    code1: u8,
    code2: u8,
    payload: &[u8],
    lent: &mut [u8],
) -> Result<usize, Refusal>
    ensures { IsMessage port (shown (from1 ∷ from2 ∷ []) (to1 ∷ to2 ∷ []) (code1 ∷ code2 ∷ []) payload.now) lent.old result lent.new }
{
    if is_refused(port, 12, payload.len(), lent.len()) {
        return refusal(payload.len());
    }
    let p = put_2_2(port, from1, from2, to1, to2, lent);
    let q = put_two(code1, code2, lent, p);
    Ok(put_field(payload, b'\n', lent, q))
}

// The same where they have none, 2 and 1.
pub fn message_0_2_1(
    port: u8,
    to1: u8,
    to2: u8,
    code: u8,
    payload: &[u8],
    lent: &mut [u8],
) -> Result<usize, Refusal>
    ensures { IsMessage port (shown [] (to1 ∷ to2 ∷ []) (code ∷ []) payload.now) lent.old result lent.new }
{
    if is_refused(port, 7, payload.len(), lent.len()) {
        return refusal(payload.len());
    }
    let p = put_0_2(port, to1, to2, lent);
    let q = put_one(code, lent, p);
    Ok(put_field(payload, b'\n', lent, q))
}

// The same where they have 1, 2 and 1.
pub fn message_1_2_1(
    port: u8,
    from: u8,
    to1: u8,
    to2: u8,
    code: u8,
    payload: &[u8],
    lent: &mut [u8],
) -> Result<usize, Refusal>
    ensures { IsMessage port (shown (from ∷ []) (to1 ∷ to2 ∷ []) (code ∷ []) payload.now) lent.old result lent.new }
{
    if is_refused(port, 8, payload.len(), lent.len()) {
        return refusal(payload.len());
    }
    let p = put_1_2(port, from, to1, to2, lent);
    let q = put_one(code, lent, p);
    Ok(put_field(payload, b'\n', lent, q))
}

// Writes the line of a damage, by the port, the damage's number and how many bytes were lost.
pub fn damage(port: u8, number: u8, lost: u16, lent: &mut [u8]) -> Result<usize, Refusal>
    ensures { IsDamage port number lost lent.old result lent.new }
{
    if lent.len() < places(port as u64) + places(number as u64) + places(lost as u64) + 3 {
        return Err(Refusal::NoRoom);
    }
    let p = put_number(port as u64, b' ', lent, 0);
    let q = put_number(number as u64, b' ', lent, p);
    Ok(put_number(lost as u64, b'\n', lent, q))
}

// Writes the line of a refusal that stops the listing, by its number.
pub fn stop(number: u8, lent: &mut [u8]) -> Result<usize, Refusal>
    ensures { IsStop number lent.old result lent.new }
{
    if lent.len() < STOP.len() + places(number as u64) + 1 {
        return Err(Refusal::NoRoom);
    }
    lent[..STOP.len()].copy_from_slice(&STOP);
    Ok(put_number(number as u64, b'\n', lent, STOP.len()))
}

// Writes the last line, with both counts.
pub fn end(messages: u64, damages: u64, lent: &mut [u8]) -> Result<usize, Refusal>
    ensures { IsEnd messages damages lent.old result lent.new }
{
    if lent.len() < END.len() + places(messages) + places(damages) + 2 {
        return Err(Refusal::NoRoom);
    }
    lent[..END.len()].copy_from_slice(&END);
    let p = put_number(messages, b' ', lent, END.len());
    Ok(put_number(damages, b'\n', lent, p))
}
