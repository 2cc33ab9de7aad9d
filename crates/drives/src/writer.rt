// The writer: one message as the bytes of a frame.
ghost use Rattle.std.specs.Prelude.{◌≡◌, ◌&&◌, ◌∷◌};
ghost use Rattle.drives.specs.Wire.{opens, proper};
ghost use Rattle.drives.specs.Writer.{IsWritten};

use crate::reader::{
    EOT, LEAST, OPENING, Reader, all_hex, checksum_of, digit, frame_most, is_hex, is_letter, opens,
};
use answers::Refusal;

// Whether every character is in its set, the opening byte in its own.
fn in_sets(opening: u8, first: u8, second: u8, letter: u8, payload: &[u8]) -> bool
    ensures { result ≡ opens opening && proper (first ∷ second ∷ letter ∷ payload.now) }
{
    let rest = all_hex(payload);
    opens(opening) & is_hex(first) & is_hex(second) & is_letter(letter) & rest
}

// Writes a message at the front of `lent`. Nothing is stored before all three tests have held.
pub fn write(
    opening: u8,
    station_first: u8,
    station_second: u8,
    letter: u8,
    payload: &[u8],
    lent: &mut [u8],
) -> Result<usize, Refusal>
    ensures { IsWritten opening station_first station_second letter payload.now lent.old result lent.new }
{
    let n = payload.len();
    let length = LEAST + n;
    if frame_most(opening) < length {
        return Err(Refusal::TooLong);
    }
    if !in_sets(opening, station_first, station_second, letter, payload) {
        return Err(Refusal::WrongCharacter);
    }
    if lent.len() < length {
        return Err(Refusal::NoRoom);
    }
    lent[..Reader::HEADER].copy_from_slice(&[opening, station_first, station_second, letter]);
    let last = Reader::HEADER + n;
    lent[Reader::HEADER..last].copy_from_slice(payload);
    let sum = checksum_of(&lent[OPENING..last]);
    lent[last..length].copy_from_slice(&[digit(sum / 16), digit(sum % 16), EOT]);
    Ok(length)
}
