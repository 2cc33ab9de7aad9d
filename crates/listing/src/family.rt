// What `drain` asks of a family: a call of its reader, which leaves the held bytes where they are, and the line of its message.
ghost use Rattle.std.specs.Prelude.{ℕ, List, ◌≤◌, length};
ghost use Rattle.stream.specs.Event.{message};
ghost use Rattle.stream.specs.Call.{lent_least};
ghost use Rattle.ports.specs.Ports.{Seat, row_of};
ghost use Rattle.listing_text.specs.Lines.{Shown};
ghost use Rattle.listing.specs.Entries.{entry_line};
ghost use Rattle.listing.specs.Inside.{Put, IsRead};

use answers::{Damage, Refusal};

// What a piece brought: a message, but for its data, or a damage and how many bytes are lost with it.
#[derive(Clone, Copy)]
pub(crate) enum Event<H> {
    Message(H),
    Damaged { what: Damage, lost: u16 },
}

// What a call tells: an event, or none where its piece is used up.
pub(crate) type Told<H> = Result<Option<Event<H>>, Refusal>;

// What a call came to: what it tells, and how many bytes of the piece were used.
#[derive(Clone, Copy)]
pub(crate) struct Read<H> {
    pub told: Told<H>,
    pub used: usize,
}

// A family's reader.
pub(crate) trait Family: Drop {
    // a message, but for its data
    type Header: Copy;

    // the family's row in the table of ports, and the state of that row's machine which a reader is
    ghost seat: { Seat };

    ghost state: { Self → (row_of seat).family.State };

    // of a header, how many data bytes there are, and with the buffer at whose front they stand how the message is shown
    ghost payload_length: { Self.Header → ℕ };

    ghost shown: { Self.Header → List ℕ → Shown };

    // One call. A message's data go to the front of `lent`.
    fn read(&mut self, piece: &[u8], lent: &mut [u8]) -> Read<Self::Header>
        ensures { IsRead seat payload_length shown (state self.old) piece.now lent.old result (state self.new) lent.new };

    // The line of a message, whose data stand at the front of `payload`.
    fn line(port: u8, header: Self::Header, payload: &[u8], out: &mut [u8]) -> usize
        requires { (payload_length header ≤ lent_least) × (payload_length header ≤ length payload.now) × (length (entry_line port (message (shown header payload.now))) ≤ length out.old) }
        ensures { Put (entry_line port (message (shown header payload.now))) out.old result out.new };
}
