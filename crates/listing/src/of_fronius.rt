// The Fronius reader, as `drain` meets it.
ghost use Rattle.std.specs.Prelude.{◌≡◌};
ghost use Rattle.ports.specs.Ports.{fronius_seat};
ghost use Rattle.fronius.specs.Reader as Fronius;
ghost use Rattle.listing.specs.Entries.{show_fronius};
ghost use Rattle.listing.specs.Inside.{told_by};

use crate::family::{Event, Family, Read, Told};

// What a call tells.
fn told(answer: fronius::Answer) -> Told<fronius::Header>
    ensures { told_by result ≡ Fronius.told answer }
{
    match answer {
        fronius::Answer::Done => Ok(None),
        fronius::Answer::Message(header) => Ok(Some(Event::Message(header))),
        fronius::Answer::Damaged { what, lost } => Ok(Some(Event::Damaged { what, lost })),
        fronius::Answer::Refused(why) => Err(why),
    }
}

impl Family for fronius::Reader {
    type Header = fronius::Header;

    ghost seat = { fronius_seat };

    ghost state = { λ reader. reader };

    ghost payload_length = { λ header. header.len };

    ghost shown = { λ header payload. show_fronius (Fronius.join header payload) };

    fn read(&mut self, piece: &[u8], lent: &mut [u8]) -> Read<fronius::Header> {
        let s = fronius::step_in_place(
            self.stage,
            self.count,
            self.len,
            &mut self.held,
            piece,
            lent,
        );
        self.stage = s.stage;
        self.count = s.count;
        self.len = s.len;
        Read {
            told: told(s.answer),
            used: s.used,
        }
    }

    fn line(port: u8, header: fronius::Header, payload: &[u8], out: &mut [u8]) -> usize {
        // it comes from nobody
        let n = header.len;
        listing_text::message_0_2_1(
            port,
            header.device,
            header.number,
            header.command,
            &payload[..n],
            out,
        )
        .unwrap_or(0)
    }
}
