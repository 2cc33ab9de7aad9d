// The answer numbers of document 01 as types: why a call refuses, and what a reader finds damaged. A writer answers `Result<usize, Refusal>`: how many bytes stand
// at the front of the buffer lent to it, or why that is as it was.
#![tactic(auto)]

ghost use Rattle.answers.specs.Refusal.{IsRefusalNumber};
ghost use Rattle.answers.specs.Damage.{IsDamageNumber};
ghost use Rattle.answers.specs.Written.{IsLength, IsWrittenNumber};

// Why a call refused. A case carries nothing, so that no two of them can be told alike.
#[derive(Clone, Copy)]
pub enum Refusal {
    // 8: data too long to write
    TooLong,
    // 9: room below the written length; for a reader, under 255 bytes lent
    NoRoom,
    // 10: a packet that does not begin with the mark
    WrongMark,
    // 11: a packet of another version
    WrongVersion,
    // 12: a packet's port or count, which no packet may have
    WrongPortOrCount,
    // 13: a packet whose bytes are not all there
    BytesMissing,
    // 14: every address of the roster is used by others
    RosterFull,
    // 15: an exponent above 10
    ExponentTooHigh,
    // 16: an address that none may have or that is free, a part of an address that has too many bits, or an exponent below -3
    WrongAddressOrExponentTooLow,
    // 17: of another kind, size or attempt than the call is for
    NotForThisCall,
    // 18: a roster or a reader's state that breaks its own rules
    Spoilt,
    // 19: more input after the last packet that a listing takes
    TooManyPackets,
    // 21: a character outside its set
    WrongCharacter,
    // 23: a slice above 65,536 bytes
    SliceTooLong,
    // 24: a place past the end of its slice
    PlacePastEnd,
}

// What a reader found wrong with bytes that it then passed over.
#[derive(Clone, Copy)]
pub enum Damage {
    // 2: an escape that is followed by neither of its two bytes
    BrokenPair,
    // 3: the length of a body or a frame, which no message has
    WrongBodyLength,
    // 4: a body that does not begin as every body does
    WrongStart,
    // 5: a size that is not that of the data
    WrongSize,
    // 6: a checksum that does not agree
    WrongSum,
    // 7: a length byte, which no message has
    WrongLengthByte,
    // 21: a character outside its set
    WrongCharacter,
}

impl Refusal {
    pub fn number(self) -> u8
        ensures { IsRefusalNumber self result }
    {
        match self {
            Refusal::TooLong => 8,
            Refusal::NoRoom => 9,
            Refusal::WrongMark => 10,
            Refusal::WrongVersion => 11,
            Refusal::WrongPortOrCount => 12,
            Refusal::BytesMissing => 13,
            Refusal::RosterFull => 14,
            Refusal::ExponentTooHigh => 15,
            Refusal::WrongAddressOrExponentTooLow => 16,
            Refusal::NotForThisCall => 17,
            Refusal::Spoilt => 18,
            Refusal::TooManyPackets => 19,
            Refusal::WrongCharacter => 21,
            Refusal::SliceTooLong => 23,
            Refusal::PlacePastEnd => 24,
        }
    }
}

impl Damage {
    pub fn number(self) -> u8
        ensures { IsDamageNumber self result }
    {
        match self {
            Damage::BrokenPair => 2,
            Damage::WrongBodyLength => 3,
            Damage::WrongStart => 4,
            Damage::WrongSize => 5,
            Damage::WrongSum => 6,
            Damage::WrongLengthByte => 7,
            Damage::WrongCharacter => 21,
        }
    }
}

// How many bytes a writer wrote: it answers their number, or why it wrote none.
pub fn written_length(written: Result<usize, Refusal>) -> usize
    ensures { IsLength written result }
{
    written.unwrap_or(0)
}

// The answer number of what a writer did.
pub fn written_number(written: Result<usize, Refusal>) -> u8
    ensures { IsWrittenNumber written result }
{
    match written {
        Ok(_) => 0,
        Err(why) => why.number(),
    }
}
