// Writes a day of packets from four ports to standard output, as a board sends them from the first light to the last. Standard input is what
// was said, a record for each message: `sample/day.txt` as bytes. Every message is made by the writer of its family and every packet by the
// packet writer; then some bytes are changed, as a bad line changes them, so that each damage number comes up.
#![tactic(auto)]

use answers::written_length;
use input::read_full;
use line::fill;
use std::io::Stdout;
use test_parts::{COMLYNX, DRIVES, EVERSOLAR, FRONIUS, LARGE, further, part};

mod input;
mod line;

// How many bytes of a line go into one packet, in turn. Most end inside a message, one between the two bytes of an escape pair, two before
// a closing flag.
const CUTS: [usize; 7] = [64, 11, 103, 29, 58, 240, 37];

// More than there are packets of any port.
const ROUNDS: usize = 60;

// Room for a full packet.
const PACKET: usize = 247;

// Room for what a port's line carried.
const LINE: usize = 4096;

// Sends the next packet of a line. Answers where the one after it begins. Of an empty line there is no packet.
fn send_next(out: Stdout, port: u8, round: usize, line: &[u8], from: usize) -> usize {
    let mut packet = [0u8; PACKET];
    let piece = part(line, from, CUTS[round % CUTS.len()]);
    let n = written_length(uplink::write(port, piece, &mut packet));
    let _ = out.write_all(part(&packet, 0, n));
    further(from, piece.len())
}

// The ports take turns, each with cuts of its own.
fn send_all(out: Stdout, one: &[u8], two: &[u8], three: &[u8], four: &[u8]) {
    let mut a = 0;
    let mut b = 0;
    let mut c = 0;
    let mut d = 0;
    for round in 0..ROUNDS {
        a = send_next(out, COMLYNX, round, one, a);
        b = send_next(out, EVERSOLAR, round + 2, two, b);
        c = send_next(out, FRONIUS, round + 3, three, c);
        d = send_next(out, DRIVES, round + 1, four, d);
    }
}

// What is read is shorter than its buffer, and no record begins with 0.
fn main(rt: HostRuntime) {
    let mut day = [0u8; LARGE];
    read_full(&mut rt.stdin(), &mut day);
    let mut one = [0u8; LINE];
    let mut two = [0u8; LINE];
    let mut three = [0u8; LINE];
    let mut four = [0u8; LINE];
    let end_one = fill(&mut one, &day, COMLYNX);
    let end_two = fill(&mut two, &day, EVERSOLAR);
    let end_three = fill(&mut three, &day, FRONIUS);
    let end_four = fill(&mut four, &day, DRIVES);
    send_all(
        rt.stdout(),
        part(&one, 0, end_one),
        part(&two, 0, end_two),
        part(&three, 0, end_three),
        part(&four, 0, end_four),
    );
}
