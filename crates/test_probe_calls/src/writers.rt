// The writers of the families and of the packet, and the requests of the Eversolar master.
use crate::heads::{HEAD, told};
use crate::wire::{past_list, word_at};
use answers::{Refusal, written_length, written_number};
use eversolar_requests::{ToAll, ToOne};
use test_parts::byte_at;

fn to_all(which: u8) -> ToAll {
    match which {
        1 => ToAll::Reconnect,
        2 => ToAll::ReRegister,
        _ => ToAll::OffLine,
    }
}

fn to_one(which: u8) -> ToOne {
    match which {
        1 => ToOne::Normal,
        2 => ToOne::Identity,
        3 => ToOne::Settings,
        4 => ToOne::FixedSize,
        _ => ToOne::Remove,
    }
}

fn eversolar(s: &[u8], payload: &[u8], lent: &mut [u8]) -> Result<usize, Refusal> {
    eversolar::write(
        byte_at(s, 1),
        byte_at(s, 2),
        byte_at(s, 3),
        byte_at(s, 4),
        byte_at(s, 5),
        byte_at(s, 6),
        payload,
        lent,
    )
}

fn drives(s: &[u8], payload: &[u8], lent: &mut [u8]) -> Result<usize, Refusal> {
    drives::write(
        byte_at(s, 1),
        byte_at(s, 2),
        byte_at(s, 3),
        byte_at(s, 4),
        payload,
        lent,
    )
}

fn frame(op: u8, s: &[u8], payload: &[u8], lent: &mut [u8]) -> Result<usize, Refusal> {
    match op {
        0x11 => comlynx::write(word_at(s, 1), word_at(s, 3), byte_at(s, 5), payload, lent),
        0x12 => eversolar(s, payload, lent),
        0x13 => fronius::write(byte_at(s, 1), byte_at(s, 2), byte_at(s, 3), payload, lent),
        _ => drives(s, payload, lent),
    }
}

fn request(op: u8, s: &[u8], serial: &[u8], lent: &mut [u8]) -> Result<usize, Refusal> {
    match op {
        0x31 => eversolar_requests::ask_all(to_all(byte_at(s, 1)), lent),
        0x32 => eversolar_requests::ask_one(to_one(byte_at(s, 1)), byte_at(s, 2), lent),
        _ => eversolar_requests::give_address(serial, byte_at(s, past_list(s, 1)), lent),
    }
}

pub(crate) fn write(op: u8, s: &[u8], first: &[u8], lent: &mut [u8]) -> Result<usize, Refusal> {
    match op / 16 {
        1 => frame(op, s, first, lent),
        3 => request(op, s, first, lent),
        _ => uplink::write(byte_at(s, 1), first, lent),
    }
}

pub(crate) fn written(w: Result<usize, Refusal>) -> [u8; HEAD] {
    told(written_number(w), written_length(w) as u64)
}
