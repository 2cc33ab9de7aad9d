// What the result of a call tells of an answer: its number, how many bytes were lost, and the fields of a message.
use test_parts::{high, low};

// How many bytes the fields of any family's message have at most.
pub(crate) const FIELDS: usize = 8;

#[derive(Drop)]
pub(crate) struct Told {
    pub(crate) number: u8,
    pub(crate) lost: u16,
    pub(crate) fields: [u8; FIELDS],
}

// An answer without a message.
fn no_message(number: u8, lost: u16) -> Told {
    Told {
        number,
        lost,
        fields: [0; FIELDS],
    }
}

fn message(fields: [u8; FIELDS]) -> Told {
    Told {
        number: 1,
        lost: 0,
        fields,
    }
}

fn comlynx_fields(h: comlynx::Header) -> [u8; FIELDS] {
    let [source_low, source_high] = h.source.to_le_bytes();
    let [destination_low, destination_high] = h.destination.to_le_bytes();
    [
        source_low,
        source_high,
        destination_low,
        destination_high,
        h.kind,
        low(h.len),
        high(h.len),
        0,
    ]
}

pub(crate) fn comlynx(answer: comlynx::Answer) -> Told {
    match answer {
        comlynx::Answer::Done => no_message(0, 0),
        comlynx::Answer::Message(h) => message(comlynx_fields(h)),
        comlynx::Answer::Damaged { what, lost } => no_message(what.number(), lost),
        comlynx::Answer::Refused(why) => no_message(why.number(), 0),
    }
}

fn eversolar_fields(h: eversolar::Header) -> [u8; FIELDS] {
    [
        h.source_first,
        h.source_second,
        h.destination_first,
        h.destination_second,
        h.control,
        h.function,
        low(h.len),
        high(h.len),
    ]
}

pub(crate) fn eversolar(answer: eversolar::Answer) -> Told {
    match answer {
        eversolar::Answer::Done => no_message(0, 0),
        eversolar::Answer::Message(h) => message(eversolar_fields(h)),
        eversolar::Answer::Damaged { what, lost } => no_message(what.number(), lost),
        eversolar::Answer::Refused(why) => no_message(why.number(), 0),
    }
}

fn fronius_fields(h: fronius::Header) -> [u8; FIELDS] {
    [
        h.device,
        h.number,
        h.command,
        low(h.len),
        high(h.len),
        0,
        0,
        0,
    ]
}

pub(crate) fn fronius(answer: fronius::Answer) -> Told {
    match answer {
        fronius::Answer::Done => no_message(0, 0),
        fronius::Answer::Message(h) => message(fronius_fields(h)),
        fronius::Answer::Damaged { what, lost } => no_message(what.number(), lost),
        fronius::Answer::Refused(why) => no_message(why.number(), 0),
    }
}

fn drives_fields(h: drives::Header) -> [u8; FIELDS] {
    [
        h.opening,
        h.station_first,
        h.station_second,
        h.letter,
        low(h.len),
        high(h.len),
        0,
        0,
    ]
}

pub(crate) fn drives(answer: drives::Answer) -> Told {
    match answer {
        drives::Answer::Done => no_message(0, 0),
        drives::Answer::Message(h) => message(drives_fields(h)),
        drives::Answer::Damaged { what, lost } => no_message(what.number(), lost),
        drives::Answer::Refused(why) => no_message(why.number(), 0),
    }
}
