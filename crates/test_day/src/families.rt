// The readers of a family, as a day is gone over with them. What is done with them is the same in all four (`streams`, `slices`): they differ in their names
// and in the fields of a header.
use crate::lines::check_of;

// What the line of an answer tells.
#[derive(Clone, Copy)]
pub(crate) enum Told {
    // the code byte, the number of data bytes, and the check number of the header
    Message { code: u8, len: usize, check: u64 },
    // the number of the damage, and how many bytes were lost
    Damage { number: u8, lost: u16 },
}

// A call of the streaming reader: the reader after it, how many bytes it used, and what its answer tells, if it has a line.
#[derive(Drop)]
pub(crate) struct Stepped<F: Drop> {
    pub(crate) reader: F,
    pub(crate) used: usize,
    pub(crate) told: Option<Told>,
}

// An ask of a slice: the place given, and what the answer tells, if it has a line.
#[derive(Clone, Copy)]
pub(crate) struct Asked {
    pub(crate) place: usize,
    pub(crate) told: Option<Told>,
}

// A family, by its streaming reader.
pub(crate) trait Family: Drop {
    // How many bytes before the place that is asked from count for the answer.
    const BACK: usize;

    // The reader before its first byte.
    fn first() -> Self;

    // One call of the streaming reader.
    fn stepped(self, piece: &[u8], lent: &mut [u8]) -> Stepped<Self>;

    // One call of the reader of slices, from a place.
    fn asked(slice: &[u8], at: usize, lent: &mut [u8]) -> Asked;
}

fn comlynx_told(answer: comlynx::Answer) -> Option<Told> {
    match answer {
        comlynx::Answer::Message(h) => Some(Told::Message {
            code: h.kind,
            len: h.len,
            check: check_of(&[h.source, h.destination, u16::from(h.kind)]),
        }),
        comlynx::Answer::Damaged { what, lost } => Some(Told::Damage {
            number: what.number(),
            lost,
        }),
        comlynx::Answer::Done | comlynx::Answer::Refused(_) => None,
    }
}

impl Family for comlynx::Reader {
    // The flag that closed the last stretch opens the next one. The other families begin anew behind an answer.
    const BACK: usize = 1;

    fn first() -> Self {
        comlynx::Reader::fresh()
    }

    fn stepped(self, piece: &[u8], lent: &mut [u8]) -> Stepped<Self> {
        let step = self.step(piece, lent);
        Stepped {
            used: step.used,
            told: comlynx_told(step.answer),
            reader: step.reader,
        }
    }

    fn asked(slice: &[u8], at: usize, lent: &mut [u8]) -> Asked {
        let found = comlynx::answer_at(slice, at, lent);
        Asked {
            place: found.place,
            told: comlynx_told(found.answer),
        }
    }
}

fn eversolar_told(answer: eversolar::Answer) -> Option<Told> {
    match answer {
        eversolar::Answer::Message(h) => Some(Told::Message {
            code: h.function,
            len: h.len,
            check: check_of(&[
                u16::from(h.source_first),
                u16::from(h.source_second),
                u16::from(h.destination_first),
                u16::from(h.destination_second),
                u16::from(h.control),
                u16::from(h.function),
            ]),
        }),
        eversolar::Answer::Damaged { what, lost } => Some(Told::Damage {
            number: what.number(),
            lost,
        }),
        eversolar::Answer::Done | eversolar::Answer::Refused(_) => None,
    }
}

impl Family for eversolar::Reader {
    const BACK: usize = 0;

    fn first() -> Self {
        eversolar::Reader::fresh()
    }

    fn stepped(self, piece: &[u8], lent: &mut [u8]) -> Stepped<Self> {
        let step = self.step(piece, lent);
        Stepped {
            used: step.used,
            told: eversolar_told(step.answer),
            reader: step.reader,
        }
    }

    fn asked(slice: &[u8], at: usize, lent: &mut [u8]) -> Asked {
        let found = eversolar::answer_at(slice, at, lent);
        Asked {
            place: found.place,
            told: eversolar_told(found.answer),
        }
    }
}

fn fronius_told(answer: fronius::Answer) -> Option<Told> {
    match answer {
        fronius::Answer::Message(h) => Some(Told::Message {
            code: h.command,
            len: h.len,
            check: check_of(&[
                u16::from(h.device),
                u16::from(h.number),
                u16::from(h.command),
            ]),
        }),
        fronius::Answer::Damaged { what, lost } => Some(Told::Damage {
            number: what.number(),
            lost,
        }),
        fronius::Answer::Done | fronius::Answer::Refused(_) => None,
    }
}

impl Family for fronius::Reader {
    const BACK: usize = 0;

    fn first() -> Self {
        fronius::Reader::fresh()
    }

    fn stepped(self, piece: &[u8], lent: &mut [u8]) -> Stepped<Self> {
        let step = self.step(piece, lent);
        Stepped {
            used: step.used,
            told: fronius_told(step.answer),
            reader: step.reader,
        }
    }

    fn asked(slice: &[u8], at: usize, lent: &mut [u8]) -> Asked {
        let found = fronius::answer_at(slice, at, lent);
        Asked {
            place: found.place,
            told: fronius_told(found.answer),
        }
    }
}

fn drives_told(answer: drives::Answer) -> Option<Told> {
    match answer {
        drives::Answer::Message(h) => Some(Told::Message {
            code: h.letter,
            len: h.len,
            check: check_of(&[
                u16::from(h.opening),
                u16::from(h.station_first),
                u16::from(h.station_second),
                u16::from(h.letter),
            ]),
        }),
        drives::Answer::Damaged { what, lost } => Some(Told::Damage {
            number: what.number(),
            lost,
        }),
        drives::Answer::Done | drives::Answer::Refused(_) => None,
    }
}

impl Family for drives::Reader {
    const BACK: usize = 0;

    fn first() -> Self {
        drives::Reader::fresh()
    }

    fn stepped(self, piece: &[u8], lent: &mut [u8]) -> Stepped<Self> {
        let step = self.step(piece, lent);
        Stepped {
            used: step.used,
            told: drives_told(step.answer),
            reader: step.reader,
        }
    }

    fn asked(slice: &[u8], at: usize, lent: &mut [u8]) -> Asked {
        let found = drives::answer_at(slice, at, lent);
        Asked {
            place: found.place,
            told: drives_told(found.answer),
        }
    }
}
