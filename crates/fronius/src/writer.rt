// The writer: one message as the bytes of a frame.
ghost use Rattle.std.specs.Prelude.{◌≡◌, ◌≤◌, length};
ghost use Rattle.std.proofs.lemmas.List.Edits.{sets};
ghost use Rattle.fronius.specs.Writer.{IsWritten};
ghost use Rattle.fronius.specs.Inside.{lead};

use crate::reader::{MARK, Reader, UNHELD, checksum_of};
use answers::Refusal;

// Stores all that stands before the data.
fn put_lead(len: u8, device: u8, number: u8, command: u8, lent: &mut [u8])
    requires { 7 ≤ length lent.old }
    ensures { lent.new ≡ sets lent.old 0 (lead len device number command) }
{
    lent[..Reader::HEADER].copy_from_slice(&[MARK, MARK, MARK, len, device, number, command]);
}

// Writes a message at the front of `lent`. Nothing is stored before both tests have held.
pub fn write(
    device: u8,
    number: u8,
    command: u8,
    payload: &[u8],
    lent: &mut [u8],
) -> Result<usize, Refusal>
    ensures { IsWritten device number command payload.now lent.old result lent.new }
{
    let n = payload.len();
    if Reader::PAYLOAD < n {
        return Err(Refusal::TooLong);
    }
    let last = Reader::HEADER + n;
    // the longest frame's bytes, less the data that are missing
    let length = Reader::BODY - (Reader::PAYLOAD - n);
    if lent.len() < length {
        return Err(Refusal::NoRoom);
    }
    put_lead(n as u8, device, number, command, lent);
    lent[Reader::HEADER..last].copy_from_slice(payload);
    let sum = checksum_of(n, &lent[UNHELD..]);
    lent[last] = sum;
    Ok(length)
}
