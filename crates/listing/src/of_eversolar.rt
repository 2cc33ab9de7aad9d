// The Eversolar reader, as `drain` meets it.
ghost use Rattle.std.specs.Prelude.{◌≡◌};
ghost use Rattle.ports.specs.Ports.{eversolar_seat};
ghost use Rattle.eversolar.specs.Reader as Eversolar;
ghost use Rattle.listing.specs.Entries.{show_eversolar};
ghost use Rattle.listing.specs.Inside.{told_by};

use crate::family::{Event, Family, Read, Told};

// What a call tells.
fn told(answer: eversolar::Answer) -> Told<eversolar::Header>
    ensures { told_by result ≡ Eversolar.told answer }
{
    match answer {
        eversolar::Answer::Done => Ok(None),
        eversolar::Answer::Message(header) => Ok(Some(Event::Message(header))),
        eversolar::Answer::Damaged { what, lost } => Ok(Some(Event::Damaged { what, lost })),
        eversolar::Answer::Refused(why) => Err(why),
    }
}

impl Family for eversolar::Reader {
    type Header = eversolar::Header;

    ghost seat = { eversolar_seat };

    ghost state = { λ reader. reader };

    ghost payload_length = { λ header. header.len };

    ghost shown = { λ header payload. show_eversolar (Eversolar.join header payload) };

    fn read(&mut self, piece: &[u8], lent: &mut [u8]) -> Read<eversolar::Header> {
        let s = eversolar::step_in_place(
            self.stage,
            self.count,
            self.len,
            &mut self.held,
            piece,
            lent,
        );
        self.stage = s.stage;
        self.count = s.count;
        self.len = s.len;
        Read {
            told: told(s.answer),
            used: s.used,
        }
    }

    fn line(port: u8, header: eversolar::Header, payload: &[u8], out: &mut [u8]) -> usize {
        let n = header.len;
        listing_text::message_2_2_2(
            port,
            header.source_first,
            header.source_second,
            header.destination_first,
            header.destination_second,
            header.control,
            header.function,
            &payload[..n],
            out,
        )
        .unwrap_or(0)
    }
}
