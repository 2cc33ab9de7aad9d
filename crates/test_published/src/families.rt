// The reader and the writer of a family, by the port that has it.
use answers::Refusal;
use ports::{Answer, Ports};
use test_parts::{COMLYNX, EVERSOLAR, FRONIUS, byte_at, low, word_at};

// What is read is told in so many bytes: the answer, then from, to and code of a message in two bytes each, then how many data bytes it has, how
// many bytes a damage lost, and how many bytes of the frame were used. What an answer or a family has not of them is 0. Every count is below 256.
pub(crate) const READ: usize = 10;

// The answer with which a message is given.
pub(crate) const MESSAGE: u8 = 1;

// Tells what is no message.
fn no_message(answer: u8, lost: usize, used: usize) -> [u8; READ] {
    [answer, 0, 0, 0, 0, 0, 0, 0, low(lost), low(used)]
}

// Tells a message by the two bytes of its from, to and code.
fn message(from: u16, to: u16, code: u16, len: usize, used: usize) -> [u8; READ] {
    let [from_high, from_low] = from.to_be_bytes();
    let [to_high, to_low] = to.to_be_bytes();
    let [code_high, code_low] = code.to_be_bytes();
    [
        MESSAGE,
        from_high,
        from_low,
        to_high,
        to_low,
        code_high,
        code_low,
        low(len),
        0,
        low(used),
    ]
}

fn comlynx_message(h: comlynx::Header, used: usize) -> [u8; READ] {
    let code = u16::from_be_bytes([h.kind, 0]);
    message(h.source, h.destination, code, h.len, used)
}

fn eversolar_message(h: eversolar::Header, used: usize) -> [u8; READ] {
    let from = u16::from_be_bytes([h.source_first, h.source_second]);
    let to = u16::from_be_bytes([h.destination_first, h.destination_second]);
    let code = u16::from_be_bytes([h.control, h.function]);
    message(from, to, code, h.len, used)
}

fn fronius_message(h: fronius::Header, used: usize) -> [u8; READ] {
    let to = u16::from_be_bytes([h.device, h.number]);
    let code = u16::from_be_bytes([h.command, 0]);
    message(0, to, code, h.len, used)
}

fn drives_message(h: drives::Header, used: usize) -> [u8; READ] {
    let from = u16::from_be_bytes([h.opening, 0]);
    let station = u16::from_be_bytes([h.station_first, h.station_second]);
    let code = u16::from_be_bytes([h.letter, 0]);
    message(from, station, code, h.len, used)
}

fn told(answer: Answer, used: usize) -> [u8; READ] {
    match answer {
        Answer::Done => no_message(0, 0, used),
        Answer::ComLynx(h) => comlynx_message(h, used),
        Answer::Eversolar(h) => eversolar_message(h, used),
        Answer::Fronius(h) => fronius_message(h, used),
        Answer::Drives(h) => drives_message(h, used),
        Answer::Damaged { what, lost } => no_message(what.number(), usize::from(lost), used),
        Answer::Refused(why) => no_message(why.number(), 0, used),
    }
}

// Reads a frame by the fresh reader of a port.
pub(crate) fn read(port: u8, frame: &[u8], lent: &mut [u8]) -> [u8; READ] {
    let step = Ports::fresh().step(port, frame, lent);
    told(step.answer, step.used)
}

// Writes a message, of which from, to and code are given in two bytes each.
pub(crate) fn write(
    port: u8,
    header: &[u8],
    payload: &[u8],
    lent: &mut [u8],
) -> Result<usize, Refusal> {
    match port {
        COMLYNX => comlynx::write(
            word_at(header, 0),
            word_at(header, 2),
            byte_at(header, 4),
            payload,
            lent,
        ),
        EVERSOLAR => eversolar::write(
            byte_at(header, 0),
            byte_at(header, 1),
            byte_at(header, 2),
            byte_at(header, 3),
            byte_at(header, 4),
            byte_at(header, 5),
            payload,
            lent,
        ),
        FRONIUS => fronius::write(
            byte_at(header, 2),
            byte_at(header, 3),
            byte_at(header, 4),
            payload,
            lent,
        ),
        _ => drives::write(
            byte_at(header, 0),
            byte_at(header, 2),
            byte_at(header, 3),
            byte_at(header, 4),
            payload,
            lent,
        ),
    }
}
