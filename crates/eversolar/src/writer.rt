// The writer: one message as the bytes of a frame.
ghost use Rattle.eversolar.specs.Writer.{IsWritten};

use crate::reader::{FIRST_MARK, MARKS, Reader, SECOND_MARK, checksum_of};
use answers::Refusal;
use eversolar_words::bytes_of;

// Writes a message at the front of `lent`; source and destination are two bytes each, as sent. Nothing is stored before both tests have held.
pub fn write(
    source_first: u8,
    source_second: u8,
    destination_first: u8,
    destination_second: u8,
    control: u8,
    function: u8,
    payload: &[u8],
    lent: &mut [u8],
) -> Result<usize, Refusal>
    ensures { IsWritten source_first source_second destination_first destination_second control function payload.now lent.old result lent.new }
{
    let n = payload.len();
    if Reader::PAYLOAD < n {
        return Err(Refusal::TooLong);
    }
    let sum_at = Reader::HEADER + n;
    // the longest frame's bytes, less the data that are missing
    let length = Reader::BODY - (Reader::PAYLOAD - n);
    if lent.len() < length {
        return Err(Refusal::NoRoom);
    }
    // all that stands before the data
    let lead = [
        FIRST_MARK,
        SECOND_MARK,
        source_first,
        source_second,
        destination_first,
        destination_second,
        control,
        function,
        n as u8,
    ];
    lent[..Reader::HEADER].copy_from_slice(&lead);
    lent[Reader::HEADER..sum_at].copy_from_slice(payload);
    let sum = checksum_of(n, &lent[MARKS..]);
    let pair = bytes_of(sum);
    lent[sum_at] = pair.first;
    lent[sum_at + 1] = pair.second;
    Ok(length)
}
