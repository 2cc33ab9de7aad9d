// A packet's piece, handed to the reader of its port until it is used up: a line for each message and each damage.
ghost use Rattle.std.specs.Prelude.{◌≤◌, ◌<◌, length};
ghost use Rattle.answers.specs.Damage as DamageNumber;
ghost use Rattle.stream.specs.Event.{damage};
ghost use Rattle.uplink.specs.Packet.{piece_max};
ghost use Rattle.ports.specs.Ports.{row_of, port_most};
ghost use Rattle.listing.specs.Entries.{entry_line};
ghost use Rattle.listing.specs.Steps.{room_least};
ghost use Rattle.listing.specs.Inside.{Put, Drains, DrainsOn};

use crate::family::{Event, Family};
use answers::{Damage, Refusal};
use ports::{COMLYNX, DRIVES, EVERSOLAR, FRONIUS, Ports};

// What every reader is to be lent.
const LENT: usize = comlynx::Reader::LENT;

// What a piece came to: how much text was written, and the counts.
#[derive(Clone, Copy)]
pub(crate) struct Drained {
    pub wrote: usize,
    pub messages: u64,
    pub damages: u64,
}

// A damage of any family, and how many bytes were lost with it.
fn damage_line(port: u8, what: Damage, lost: u16, out: &mut [u8]) -> usize
    requires { length (entry_line port (damage (DamageNumber.number what) lost)) ≤ length out.old }
    ensures { Put (entry_line port (damage (DamageNumber.number what) lost)) out.old result out.new }
{
    listing_text::damage(port, what.number(), lost, out).unwrap_or(0)
}

// A spoilt reader is refused, and then nothing is done.
fn drain<F: Family>(
    reader: &mut F,
    port: u8,
    piece: &[u8],
    out: &mut [u8],
) -> Result<Drained, Refusal>
    requires { (1 ≤ port) × (port < 10) × (0 < length piece.now) × (length piece.now ≤ piece_max) × (room_least ≤ length out.old) }
    ensures { Drains F.seat (F.state reader.old) port piece.now out.old result (F.state reader.new) out.new }
{
    let mut lent = [0u8; LENT];
    let mut wrote: usize = 0;
    let mut messages: u64 = 0;
    let mut damages: u64 = 0;
    let mut at: usize = 0;
    // No `for`: each turn goes on by what the reader used.
    while at < piece.len() {
        let read = reader.read(&piece[at..], &mut lent);
        at += read.used;
        match read.told? {
            None => {}
            Some(Event::Message(header)) => {
                wrote += F::line(port, header, &lent, &mut out[wrote..]);
                messages += 1;
            }
            Some(Event::Damaged { what, lost }) => {
                wrote += damage_line(port, what, lost, &mut out[wrote..]);
                damages += 1;
            }
        }
    }
    Ok(Drained {
        wrote,
        messages,
        damages,
    })
}

// By the reader of the port, which stays in its place among the others: none of them is copied.
pub(crate) fn drain_on(
    ports: &mut Ports,
    port: u8,
    piece: &[u8],
    out: &mut [u8],
) -> Result<Drained, Refusal>
    requires { (1 ≤ port) × (port ≤ port_most) × (0 < length piece.now) × (length piece.now ≤ piece_max) × (room_least ≤ length out.old) }
    ensures { DrainsOn ports.old port piece.now out.old result ports.new out.new }
{
    match port {
        COMLYNX => drain(&mut ports.comlynx, COMLYNX, piece, out),
        EVERSOLAR => drain(&mut ports.eversolar, EVERSOLAR, piece, out),
        FRONIUS => drain(&mut ports.fronius, FRONIUS, piece, out),
        _ => drain(&mut ports.drives, DRIVES, piece, out),
    }
}
