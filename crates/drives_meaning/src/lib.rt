// What a message to or from a drive asks for.
#![tactic(auto)]

ghost use Rattle.std.specs.Prelude.{◌≡◌, ◌&&◌};
ghost use Rattle.drives.specs.Wire.{opens, is_hex};
ghost use Rattle.drives_meaning.specs.Replies.{every_drive, IsReplyExpected};

use answers::Refusal;

// Whether a message expects a reply.
#[derive(Clone, Copy, Debug, PartialEq, Eq)]
pub enum Expected {
    // the drive of its station answers it
    Reply,
    // nobody does: it is a reply itself, or it is for every drive
    NoReply,
}

// What opens a request, a reply and an error reply.
const ENQ: u8 = 0x05;

const ACK: u8 = 0x06;

const NAK: u8 = 0x15;

// The character of which two are station 255.
const LAST_DIGIT: u8 = b'F';

// Whether a byte opens a frame.
#[tactic(auto, unfolding(drives::specs::Wire::opens))]
fn opens(b: u8) -> bool
    ensures { result ≡ opens b }
{
    matches!(b, ENQ | ACK | NAK)
}

// Whether a character is 0 to 9 or A to F.
#[tactic(auto, unfolding(drives::specs::Wire::is_hex))]
fn is_hex(c: u8) -> bool
    ensures { result ≡ is_hex c }
{
    matches!(c, b'0'..=b'9' | b'A'..=b'F')
}

// Whether the station is 255, which is every drive.
fn every_drive(first: u8, second: u8) -> bool
    ensures { result ≡ every_drive first second }
{
    first == LAST_DIGIT && second == LAST_DIGIT
}

// Whether a message with this opening byte to or from this station expects a reply.
#[tactic(auto, unfolding(crate::specs::Replies::expected))]
pub fn reply_expected(
    opening: u8,
    station_first: u8,
    station_second: u8,
) -> Result<Expected, Refusal>
    ensures { IsReplyExpected opening station_first station_second result }
{
    if !(opens(opening) && is_hex(station_first) && is_hex(station_second)) {
        return Err(Refusal::WrongCharacter);
    }
    if opening != ENQ || every_drive(station_first, station_second) {
        return Ok(Expected::NoReply);
    }
    Ok(Expected::Reply)
}
