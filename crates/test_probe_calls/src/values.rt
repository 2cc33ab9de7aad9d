// The calls that lend nothing: what messages mean, the packet reader, and the ComLynx checksum by itself.
use crate::heads::{HEAD, told};
use crate::wire::{list_at, past_list, put, quad_at, size_at, word_at};
use answers::Refusal;
use comlynx_meaning::{Address, Meaning};
use drives_meaning::Expected;
use fronius_meaning::reading::Reading;
use test_parts::{byte_at, high, low, part};

// Answer number 0, a kind, and a number low byte first.
fn kind_told(kind: u8, n: u64) -> [u8; HEAD] {
    let others = told(kind, n);
    let mut head = [0u8; HEAD];
    put(&mut head, 1, part(&others, 0, HEAD - 1));
    head
}

// An answer number and three bytes.
fn three_told(number: u8, one: u8, two: u8, three: u8) -> [u8; HEAD] {
    [number, one, two, three, 0, 0, 0, 0, 0, 0, 0, 0, 0]
}

pub(crate) fn refused(why: Refusal) -> [u8; HEAD] {
    told(why.number(), 0)
}

fn meaning(kind: u8, payload: &[u8]) -> [u8; HEAD] {
    match comlynx_meaning::meaning_of(kind, payload) {
        Ok(Meaning::Request(id)) => three_told(0, 1, id, 0),
        Ok(Meaning::Reply(id)) => three_told(0, 2, id, 0),
        Ok(Meaning::TransmissionError(id, code)) => three_told(0, 3, id, code),
        Ok(Meaning::ApplicationError(id, code)) => three_told(0, 4, id, code),
        Err(why) => refused(why),
    }
}

fn address(word: u16) -> [u8; HEAD] {
    let a = comlynx_meaning::address_of(word);
    three_told(0, a.network, a.subnet, a.node)
}

fn word_of_address(network: u8, subnet: u8, node: u8) -> [u8; HEAD] {
    let a = Address {
        network,
        subnet,
        node,
    };
    match comlynx_meaning::word_of(a) {
        Ok(w) => told(0, w as u64),
        Err(why) => refused(why),
    }
}

fn expected(opening: u8, first: u8, second: u8) -> [u8; HEAD] {
    match drives_meaning::reply_expected(opening, first, second) {
        Ok(Expected::Reply) => told(0, 1),
        Ok(Expected::NoReply) => told(0, 0),
        Err(why) => refused(why),
    }
}

fn energy(control: u8, function: u8, payload: &[u8]) -> [u8; HEAD] {
    match eversolar_meaning::total_energy(control, function, payload) {
        Ok(tenths) => told(0, tenths as u64),
        Err(why) => refused(why),
    }
}

fn wait(serial: u64, attempt: u8) -> [u8; HEAD] {
    match eversolar_meaning::wait_of(serial, attempt) {
        Ok(intervals) => told(0, intervals),
        Err(why) => refused(why),
    }
}

// A number as it is, and 0 where it is below 0.
fn magnitude(x: i64) -> u64 {
    if x >= 0 {
        return x as u64;
    }
    0
}

// A signed number as its two's complement.
fn complement(x: i64) -> u64 {
    if x >= 0 {
        return magnitude(x);
    }
    !magnitude(!x)
}

fn measured(payload: &[u8], signed: bool) -> [u8; HEAD] {
    match fronius_meaning::measured::thousandths(payload, signed) {
        Ok(n) => told(0, complement(n)),
        Err(why) => refused(why),
    }
}

// The double's pattern. No reading carries a NaN, whose pattern is not to be had: it would show as 0.
fn pattern(x: f64) -> u64 {
    if x != x {
        return 0;
    }
    f64::to_bits(x)
}

// A reading's kind by its number, and its double.
#[derive(Drop)]
struct Kinded {
    kind: u8,
    value: f64,
}

fn of_kind(kind: u8, value: f64) -> Kinded {
    Kinded { kind, value }
}

fn valued(reading: Reading) -> Kinded {
    match reading {
        Reading::Power(x) => of_kind(1, x),
        Reading::Energy(x) => of_kind(2, x),
        Reading::Voltage(x) => of_kind(3, x),
        Reading::Current(x) => of_kind(4, x),
        Reading::Frequency(x) => of_kind(5, x),
        Reading::Minutes(x) => of_kind(6, x),
        Reading::Money(x) => of_kind(7, x),
    }
}

fn value_told(reading: Reading) -> [u8; HEAD] {
    let v = valued(reading);
    kind_told(v.kind, pattern(v.value))
}

fn reading(device: u8, command: u8, payload: &[u8]) -> [u8; HEAD] {
    match fronius_meaning::reading::reading_of(device, command, payload) {
        Ok(value) => value_told(value),
        Err(why) => refused(why),
    }
}

fn word_bytes(word: u16) -> [u8; HEAD] {
    let pair = eversolar_words::bytes_of(word);
    three_told(0, pair.first, pair.second, 0)
}

fn packet_told(port: u8, count: u8, used: usize) -> [u8; HEAD] {
    [
        0,
        port,
        count,
        low(used),
        high(used),
        0,
        0,
        0,
        0,
        0,
        0,
        0,
        0,
    ]
}

fn packet(bytes: &[u8]) -> [u8; HEAD] {
    match uplink::read(bytes) {
        Ok(packet) => packet_told(packet.port, packet.count, packet.used),
        Err(why) => refused(why),
    }
}

fn sum(state: u16) -> [u8; HEAD] {
    told(0, state as u64)
}

fn sent(state: u16) -> [u8; HEAD] {
    let sent = comlynx_checksum::sent_of(state);
    three_told(0, sent.low, sent.high, 0)
}

// The checksums, and the packet reader.
fn of_wire(op: u8, s: &[u8], first: &[u8]) -> [u8; HEAD] {
    match op {
        0x61 => packet(first),
        0x71 => sum(comlynx_checksum::of(first)),
        0x72 => sum(comlynx_checksum::more(word_at(s, 1), first)),
        0x73 => sent(word_at(s, 1)),
        0x74 => sum(comlynx_checksum::of_first(first, size_at(s, 1))),
        _ => sum(comlynx_checksum::of_both(first, list_at(s, past_list(s, 1)))),
    }
}

// The checksum of the small board.
fn of_small_board(op: u8, s: &[u8], first: &[u8]) -> [u8; HEAD] {
    match op {
        0x76 => sum(comlynx_checksum_bitwise::of(first)),
        0x77 => sum(comlynx_checksum_bitwise::more(word_at(s, 1), first)),
        0x78 => sum(comlynx_checksum_bitwise::of_first(first, size_at(s, 1))),
        _ => sum(comlynx_checksum_bitwise::of_both(first, list_at(s, past_list(s, 1)))),
    }
}

// What Eversolar data mean.
fn of_eversolar(op: u8, s: &[u8], first: &[u8]) -> [u8; HEAD] {
    match op {
        0x34 => energy(byte_at(s, 1), byte_at(s, 2), first),
        0x35 => wait(quad_at(s, 1), byte_at(s, 9)),
        0x36 => sum(eversolar_words::word(byte_at(s, 1), byte_at(s, 2))),
        _ => word_bytes(word_at(s, 1)),
    }
}

// What messages of the other families mean.
fn of_others(op: u8, s: &[u8], first: &[u8]) -> [u8; HEAD] {
    match op {
        0x21 => meaning(byte_at(s, 1), first),
        0x22 => address(word_at(s, 1)),
        0x23 => word_of_address(byte_at(s, 1), byte_at(s, 2), byte_at(s, 3)),
        0x24 => expected(byte_at(s, 1), byte_at(s, 2), byte_at(s, 3)),
        0x41 => measured(first, byte_at(s, 1) == 1),
        _ => reading(byte_at(s, 1), byte_at(s, 2), first),
    }
}

pub(crate) fn head_of(op: u8, s: &[u8], first: &[u8]) -> [u8; HEAD] {
    if op / 16 == 3 {
        return of_eversolar(op, s, first);
    }
    if op / 16 < 5 {
        return of_others(op, s, first);
    }
    if op > 0x75 {
        return of_small_board(op, s, first);
    }
    of_wire(op, s, first)
}
