// The listing of an input of packets, one packet a call. Nothing is read or written here: the input is handed in as it comes, the text goes to the front of a lent buffer.
#![tactic(auto)]

mod drain;
mod family;
mod of_comlynx;
mod of_drives;
mod of_eversolar;
mod of_fronius;

ghost use Rattle.std.specs.Prelude.{◌≡◌, ◌≤◌, length};
ghost use Rattle.std.proofs.Math.Option.{some};
ghost use Rattle.answers.specs.Refusal.{number as refusalNumber};
ghost use Rattle.listing_text.specs.Lines.{end_line};
ghost use Rattle.listing.specs.Steps.{room_least, unmoved, wants_more, ends, no_packet, at_end, listed, HandsBack, IsFresh, IsStep};
ghost use Rattle.listing.specs.Inside.{Put, InRange, stop_most, stop_text, stop_of, end_most, finish, took};
ghost use Rattle.listing.specs.Entries.{last_lines};

use crate::drain::drain_on;
use answers::Refusal;
use ports::Ports;
use uplink::{LEAD, PIECE_MAX};

// How many packets are taken.
pub const PACKETS_MAX: usize = 65536;

// What is to be lent at least: room for the lines of any packet.
pub const ROOM: usize = 8192;

// A listing in progress: the readers, and what was counted so far.
#[derive(Drop)]
pub struct Listing {
    pub ports: Ports,
    // packets taken
    pub packets: usize,
    // messages and damages told
    pub messages: u64,
    pub damages: u64,
}

// What a call came to. No Result: the listing comes back with a refusal too, so `?` would have nothing to hand on.
#[derive(Clone, Copy)]
pub enum Heard {
    // the input at hand is the front of a packet, and more is to come: nothing is used or written
    More,
    // one packet was taken, and its lines are written
    Packet,
    // there is nothing more to list: the last lines are written
    End,
    // nothing is used or written
    Refused(Refusal),
}

// What a call hands back: the listing to go on with, how many bytes of the input were used, and how many stand at the front of the lent buffer.
#[derive(Drop)]
pub struct Listed {
    pub listing: Listing,
    pub heard: Heard,
    pub used: usize,
    pub wrote: usize,
}

// Whether the counts may be: with so many packets at most, the product and all sums below stay small.
fn in_range(packets: usize, messages: u64, damages: u64) -> bool
    ensures { InRange packets messages damages result }
{
    if PACKETS_MAX < packets {
        return false;
    }
    let most = (PIECE_MAX * packets) as u64;
    (messages <= most) & (damages <= most)
}

// The listing as it was, nothing used and nothing written.
fn refused(l: Listing, why: Refusal) -> Listed
    ensures { result ≡ listed (unmoved why l) }
{
    let heard = Heard::Refused(why);
    Listed {
        listing: l,
        heard,
        used: 0,
        wrote: 0,
    }
}

fn wants_more(l: Listing) -> Listed
    ensures { result ≡ listed (wants_more l) }
{
    let heard = Heard::More;
    Listed {
        listing: l,
        heard,
        used: 0,
        wrote: 0,
    }
}

// The line of what stops the listing, if something does.
fn put_stop(stop: Option<Refusal>, out: &mut [u8]) -> usize
    requires { room_least ≤ length out.old }
    ensures put { Put (stop_text stop) out.old result out.new }
    ensures upper_bound { result ≤ stop_most }
{
    match stop {
        None => 0,
        Some(why) => listing_text::stop(why.number(), out).unwrap_or(0),
    }
}

// The line with the counts.
fn put_end(messages: u64, damages: u64, out: &mut [u8]) -> usize
    requires { end_most ≤ length out.old }
    ensures put { Put (end_line messages damages) out.old result out.new }
    ensures upper_bound { result ≤ end_most }
{
    listing_text::end(messages, damages, out).unwrap_or(0)
}

// The last lines.
fn put_last(messages: u64, damages: u64, stop: Option<Refusal>, out: &mut [u8]) -> usize
    requires { room_least ≤ length out.old }
    ensures { Put (last_lines (stop_of stop) messages damages) out.old result out.new }
{
    let p = put_stop(stop, out);
    let q = put_end(messages, damages, &mut out[p..]);
    p + q
}

// Nothing more to list, and so many bytes of last lines.
fn finished(l: Listing, wrote: usize) -> Listed
    ensures { result ≡ finish l wrote }
{
    let heard = Heard::End;
    Listed {
        listing: l,
        heard,
        used: 0,
        wrote,
    }
}

// Nothing more to list, for what stops it: the last lines.
fn over(l: Listing, why: Refusal, out: &mut [u8]) -> Listed
    requires { room_least ≤ length out.old }
    ensures { HandsBack l (ends l (some (refusalNumber why))) out.old result out.new }
{
    let wrote = put_last(l.messages, l.damages, Some(why), out);
    finished(l, wrote)
}

// A refused packet: one whose bytes are not all there yet may still be whole.
fn no_packet(l: Listing, why: Refusal, ended: bool, out: &mut [u8]) -> Listed
    requires { room_least ≤ length out.old }
    ensures { HandsBack l (no_packet l (refusalNumber why) ended) out.old result out.new }
{
    match why {
        Refusal::BytesMissing if !ended => wants_more(l),
        _ => over(l, why, out),
    }
}

// A packet taken: the listing after it.
fn taken(l: Listing, used: usize, wrote: usize) -> Listed
    ensures { result ≡ took l.ports l.packets l.messages l.damages used wrote }
{
    let heard = Heard::Packet;
    Listed {
        listing: l,
        heard,
        used,
        wrote,
    }
}

// Where the input ends, or all that is at hand of it is used.
fn at_end(l: Listing, ended: bool, out: &mut [u8]) -> Listed
    requires { room_least ≤ length out.old }
    ensures { HandsBack l (at_end l ended) out.old result out.new }
{
    if ended {
        let wrote = put_last(l.messages, l.damages, None, out);
        return finished(l, wrote);
    }
    wants_more(l)
}

impl Listing {
    // Before the first packet.
    pub fn fresh() -> Self
        ensures { IsFresh result }
    {
        let ports = Ports::fresh();
        Listing {
            ports,
            packets: 0,
            messages: 0,
            damages: 0,
        }
    }

    // One packet: that at the front of the input at hand. `ended` says that no more is to come after it. A packet's bytes are used, and its
    // lines written, all or none. The readers are lent and stay where they are: a spoilt one is as it was. So no copy of the listing is kept.
    pub fn step(mut self, input: &[u8], ended: bool, out: &mut [u8]) -> Listed
        ensures { IsStep self input.now ended out.old result out.new }
    {
        if !in_range(self.packets, self.messages, self.damages) {
            return refused(self, Refusal::Spoilt);
        }
        if out.len() < ROOM {
            return refused(self, Refusal::NoRoom);
        }
        if input.len() == 0 {
            return at_end(self, ended, out);
        }
        if self.packets == PACKETS_MAX {
            return over(self, Refusal::TooManyPackets, out);
        }
        match uplink::read(input) {
            Ok(packet) => {
                let piece = &input[LEAD..packet.used];
                match drain_on(&mut self.ports, packet.port, piece, out) {
                    Ok(d) => {
                        self.packets += 1;
                        self.messages += d.messages;
                        self.damages += d.damages;
                        taken(self, packet.used, d.wrote)
                    }
                    Err(why) => refused(self, why),
                }
            }
            Err(why) => no_packet(self, why, ended, out),
        }
    }
}
