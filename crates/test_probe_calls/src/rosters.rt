// The roster, over bytes and over places that are held by value.
use crate::heads::{HEAD, told};
use crate::values::refused;
use crate::wire::{list_at, past_list, put};
use answers::Refusal;
use roster::{PLACE_SIZE, PLACES, Place, ROSTER_SIZE, SERIAL_SIZE};
use test_parts::{byte_at, further, part};

// The answer that a list of another number of places has.
const SPOILT: u8 = 18;

fn given_head(given: Result<u8, Refusal>) -> [u8; HEAD] {
    match given {
        Ok(address) => told(0, u64::from(address)),
        Err(why) => refused(why),
    }
}

fn found_head(found: Result<Option<u8>, Refusal>) -> [u8; HEAD] {
    match found {
        Ok(Some(address)) => told(0, u64::from(address)),
        Ok(None) => told(0, 0),
        Err(why) => refused(why),
    }
}

fn removed_head(removed: Result<(), Refusal>) -> [u8; HEAD] {
    match removed {
        Ok(()) => told(0, 0),
        Err(why) => refused(why),
    }
}

// ---- over places
// A slice of structs is lent by the calls over an array alone, which has 254 places: a function that lends one of another length
// would be proved by hand. For another number of places the answer is the one that the rule has for every other size.

// How many bytes of a list of so many are lent: over places, as far as it has whole ones.
pub(crate) fn counted(op: u8, n: usize) -> usize {
    if op < 0x54 {
        return n;
    }
    if op > 0x56 {
        return n;
    }
    n - n % PLACE_SIZE
}

fn place_of(s: &[u8]) -> Place {
    let mut serial = [0u8; SERIAL_SIZE];
    put(&mut serial, 0, part(s, 1, SERIAL_SIZE));
    Place {
        mark: byte_at(s, 0),
        serial,
    }
}

fn places_of(s: &[u8]) -> [Place; PLACES] {
    let serial = [0u8; SERIAL_SIZE];
    let free = Place { mark: 0, serial };
    let mut places = [free; PLACES];
    for i in 0..PLACES {
        places[i] = place_of(part(s, PLACE_SIZE * i, PLACE_SIZE));
    }
    places
}

// Answers the place behind it.
fn put_place(roster: &mut [u8], at: usize, place: Place) -> usize {
    let mark = [place.mark];
    let serial = place.serial;
    put(roster, at, &mark);
    put(roster, further(at, 1), &serial);
    further(at, PLACE_SIZE)
}

fn put_places(roster: &mut [u8], places: [Place; PLACES]) {
    let mut next = 0;
    for place in &places {
        next = put_place(roster, next, *place);
    }
}

fn give_held(lent: &mut [u8], serial: &[u8]) -> [u8; HEAD] {
    let held = roster_places::give_held(places_of(lent), serial);
    put_places(lent, held.places);
    given_head(held.told)
}

fn remove_held(lent: &mut [u8], address: u8) -> [u8; HEAD] {
    let held = roster_places::remove_held(places_of(lent), address);
    put_places(lent, held.places);
    removed_head(held.told)
}

fn find_held(lent: &[u8], serial: &[u8]) -> [u8; HEAD] {
    found_head(roster_places::find_held(places_of(lent), serial))
}

fn head_of_held(op: u8, s: &[u8], lent: &mut [u8]) -> [u8; HEAD] {
    if lent.len() != ROSTER_SIZE {
        return told(SPOILT, 0);
    }
    let second = past_list(s, 1);
    match op {
        0x54 => give_held(lent, list_at(s, second)),
        0x55 => remove_held(lent, byte_at(s, second)),
        _ => find_held(lent, list_at(s, second)),
    }
}

// ---- over either

pub(crate) fn head_of(op: u8, s: &[u8], lent: &mut [u8]) -> [u8; HEAD] {
    let second = past_list(s, 1);
    match op {
        0x51 => given_head(roster::give(lent, list_at(s, second))),
        0x52 => removed_head(roster::remove(lent, byte_at(s, second))),
        0x53 => found_head(roster::find(lent, list_at(s, second))),
        _ => head_of_held(op, s, lent),
    }
}
