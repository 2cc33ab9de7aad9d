// The ComLynx reader, as `drain` meets it.
ghost use Rattle.std.specs.Prelude.{◌≡◌};
ghost use Rattle.ports.specs.Ports.{comlynx_seat};
ghost use Rattle.comlynx.specs.Reader as Comlynx;
ghost use Rattle.listing.specs.Entries.{show_comlynx};
ghost use Rattle.listing.specs.Inside.{told_by};

use crate::family::{Event, Family, Read, Told};

// What a call tells.
fn told(answer: comlynx::Answer) -> Told<comlynx::Header>
    ensures { told_by result ≡ Comlynx.told answer }
{
    match answer {
        comlynx::Answer::Done => Ok(None),
        comlynx::Answer::Message(header) => Ok(Some(Event::Message(header))),
        comlynx::Answer::Damaged { what, lost } => Ok(Some(Event::Damaged { what, lost })),
        comlynx::Answer::Refused(why) => Err(why),
    }
}

impl Family for comlynx::Reader {
    type Header = comlynx::Header;

    ghost seat = { comlynx_seat };

    ghost state = { λ reader. reader };

    ghost payload_length = { λ header. header.len };

    ghost shown = { λ header payload. show_comlynx (Comlynx.join header payload) };

    fn read(&mut self, piece: &[u8], lent: &mut [u8]) -> Read<comlynx::Header> {
        let s = comlynx::step_in_place(
            self.stage,
            self.came,
            self.count,
            &mut self.held,
            piece,
            lent,
        );
        self.stage = s.stage;
        self.came = s.came;
        self.count = s.count;
        Read {
            told: told(s.answer),
            used: s.used,
        }
    }

    fn line(port: u8, header: comlynx::Header, payload: &[u8], out: &mut [u8]) -> usize {
        let n = header.len;
        listing_text::message_2_2_1(
            port,
            (header.source / 256) as u8,
            (header.source % 256) as u8,
            (header.destination / 256) as u8,
            (header.destination % 256) as u8,
            header.kind,
            &payload[..n],
            out,
        )
        .unwrap_or(0)
    }
}
