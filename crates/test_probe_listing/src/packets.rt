// A listing, one packet a call; and the fresh states.
use crate::heads::{HEAD, say_head, told};
use crate::shapes::{LISTING_STATE, PORTS_STATE};
use crate::sides::{ports_of, say_ports};
use crate::wire::{QUAD, quad_at, say};
use listing::{Heard, Listing};
use ports::Ports;
use std::io::Stdout;
use test_parts::{byte_at, high, low, part};

fn listing_of(s: &[u8]) -> Listing {
    let ports = ports_of(s);
    Listing {
        ports,
        packets: quad_at(s, 1 + PORTS_STATE) as usize,
        messages: quad_at(s, 1 + PORTS_STATE + QUAD),
        damages: quad_at(s, 1 + PORTS_STATE + 2 * QUAD),
    }
}

fn say_count(out: Stdout, n: u64) {
    let bytes = told(0, n);
    say(out, part(&bytes, 1, QUAD));
}

fn say_listing(out: Stdout, listing: Listing) {
    let ports = listing.ports;
    say_ports(out, ports);
    say_count(out, listing.packets as u64);
    say_count(out, listing.messages);
    say_count(out, listing.damages);
}

fn came(number: u8, what: u8, used: usize, wrote: usize) -> [u8; HEAD] {
    [
        number,
        what,
        low(used),
        high(used),
        low(wrote),
        high(wrote),
        0,
        0,
        0,
        0,
        0,
        0,
        0,
    ]
}

fn heard_head(heard: Heard, used: usize, wrote: usize) -> [u8; HEAD] {
    match heard {
        Heard::More => came(0, 1, used, wrote),
        Heard::Packet => came(0, 2, used, wrote),
        Heard::End => came(0, 3, used, wrote),
        Heard::Refused(why) => came(why.number(), 0, used, wrote),
    }
}

pub(crate) fn call(out: Stdout, s: &[u8], input: &[u8], lent: &mut [u8], head: usize) {
    let ended = byte_at(s, 1 + LISTING_STATE) == 1;
    let listed = listing_of(s).step(input, ended, lent);
    let heard = listed.heard;
    let listing = listed.listing;
    say_head(out, heard_head(heard, listed.used, listed.wrote), head);
    say_listing(out, listing);
}

pub(crate) fn fresh(out: Stdout, op: u8, head: usize) {
    say_head(out, told(0, 0), head);
    match op {
        0x86 => say_ports(out, Ports::fresh()),
        _ => say_listing(out, Listing::fresh()),
    }
}
