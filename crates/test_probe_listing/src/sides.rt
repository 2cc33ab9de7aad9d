// The readers of all ports side by side.
use crate::shapes::PORTS_STATE;
use crate::states::{
    COMLYNX_STATE, EVERSOLAR_STATE, FRONIUS_STATE, MESSAGE, comlynx_state, drives_state,
    eversolar_state, fronius_state, say_comlynx, say_drives, say_eversolar, say_fronius,
};
use crate::wire::{WORD, say, say_list, say_size};
use ports::{Answer, Ports};
use std::io::Stdout;
use test_parts::{byte_at, further, high, low, part};

// How many bytes are told where all three lists are empty: the number, the bytes used and lost, the length of each list, and how many data bytes there are.
const TOLD: usize = 1 + 6 * WORD;

// Where the states of the second port, the third and the fourth begin.
const SECOND: usize = COMLYNX_STATE;

const THIRD: usize = SECOND + EVERSOLAR_STATE;

const FOURTH: usize = THIRD + FRONIUS_STATE;

// A state is read behind the byte that its bytes begin with, be it the opcode or the last of the state before.
pub(crate) fn ports_of(s: &[u8]) -> Ports {
    let first = comlynx_state(s);
    let second = eversolar_state(part(s, SECOND, PORTS_STATE));
    let third = fronius_state(part(s, THIRD, PORTS_STATE));
    let fourth = drives_state(part(s, FOURTH, PORTS_STATE));
    Ports {
        comlynx: first,
        eversolar: second,
        fronius: third,
        drives: fourth,
    }
}

pub(crate) fn say_ports(out: Stdout, ports: Ports) {
    let first = ports.comlynx;
    let second = ports.eversolar;
    let third = ports.fronius;
    let fourth = ports.drives;
    say_comlynx(out, first);
    say_eversolar(out, second);
    say_fronius(out, third);
    say_drives(out, fourth);
}

// Puts out what is told of an answer: first its length with all that follows behind it, then the number and the bytes used and lost. Of a message from,
// to, code and the number of its data bytes follow.
fn say_told(
    out: Stdout,
    number: u8,
    used: usize,
    lost: usize,
    from: &[u8],
    to: &[u8],
    code: &[u8],
    len: usize,
    behind: usize,
) {
    let lists = further(further(from.len(), to.len()), code.len());
    let number = [number];
    say_size(out, further(further(TOLD, lists), behind));
    say(out, &number);
    say_size(out, used);
    say_size(out, lost);
    say_list(out, from);
    say_list(out, to);
    say_list(out, code);
    say_size(out, len);
}

fn say_number(out: Stdout, number: u8, used: usize, lost: usize, behind: usize) {
    say_told(out, number, used, lost, b"", b"", b"", 0, behind);
}

fn say_comlynx_message(out: Stdout, h: comlynx::Header, used: usize, behind: usize) {
    let source = h.source as usize;
    let destination = h.destination as usize;
    let from = [high(source), low(source)];
    let to = [high(destination), low(destination)];
    let code = [h.kind];
    say_told(out, MESSAGE, used, 0, &from, &to, &code, h.len, behind);
}

fn say_eversolar_message(out: Stdout, h: eversolar::Header, used: usize, behind: usize) {
    let from = [h.source_first, h.source_second];
    let to = [h.destination_first, h.destination_second];
    let code = [h.control, h.function];
    say_told(out, MESSAGE, used, 0, &from, &to, &code, h.len, behind);
}

fn say_fronius_message(out: Stdout, h: fronius::Header, used: usize, behind: usize) {
    let to = [h.device, h.number];
    let code = [h.command];
    say_told(out, MESSAGE, used, 0, b"", &to, &code, h.len, behind);
}

fn say_drives_message(out: Stdout, h: drives::Header, used: usize, behind: usize) {
    let from = [h.opening];
    let to = [h.station_first, h.station_second];
    let code = [h.letter];
    say_told(out, MESSAGE, used, 0, &from, &to, &code, h.len, behind);
}

fn say_answer(out: Stdout, answer: Answer, used: usize, behind: usize) {
    match answer {
        Answer::Done => say_number(out, 0, used, 0, behind),
        Answer::ComLynx(h) => say_comlynx_message(out, h, used, behind),
        Answer::Eversolar(h) => say_eversolar_message(out, h, used, behind),
        Answer::Fronius(h) => say_fronius_message(out, h, used, behind),
        Answer::Drives(h) => say_drives_message(out, h, used, behind),
        Answer::Damaged { what, lost } => say_number(
            out,
            what.number(),
            used,
            lost as usize,
            behind,
        ),
        Answer::Refused(why) => say_number(out, why.number(), used, 0, behind),
    }
}

// The answer decides how long the result is, so that its length is put out here. The state and what was lent stand behind what is told.
pub(crate) fn call(out: Stdout, s: &[u8], piece: &[u8], lent: &mut [u8]) {
    let behind = further(PORTS_STATE + WORD, lent.len());
    let step = ports_of(s).step(byte_at(s, 1 + PORTS_STATE), piece, lent);
    let answer = step.answer;
    let ports = step.ports;
    say_answer(out, answer, step.used, behind);
    say_ports(out, ports);
}
