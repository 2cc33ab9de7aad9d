// The drives reader, as `drain` meets it.
ghost use Rattle.std.specs.Prelude.{◌≡◌};
ghost use Rattle.ports.specs.Ports.{drives_seat};
ghost use Rattle.drives.specs.Reader as Drives;
ghost use Rattle.listing.specs.Entries.{show_drives};
ghost use Rattle.listing.specs.Inside.{told_by};

use crate::family::{Event, Family, Read, Told};

// What a call tells.
fn told(answer: drives::Answer) -> Told<drives::Header>
    ensures { told_by result ≡ Drives.told answer }
{
    match answer {
        drives::Answer::Done => Ok(None),
        drives::Answer::Message(header) => Ok(Some(Event::Message(header))),
        drives::Answer::Damaged { what, lost } => Ok(Some(Event::Damaged { what, lost })),
        drives::Answer::Refused(why) => Err(why),
    }
}

impl Family for drives::Reader {
    type Header = drives::Header;

    ghost seat = { drives_seat };

    ghost state = { λ reader. reader };

    ghost payload_length = { λ header. header.len };

    ghost shown = { λ header payload. show_drives (Drives.join header payload) };

    fn read(&mut self, piece: &[u8], lent: &mut [u8]) -> Read<drives::Header> {
        let s = drives::step_in_place(self.stage, self.count, &mut self.held, piece, lent);
        self.stage = s.stage;
        self.count = s.count;
        Read {
            told: told(s.answer),
            used: s.used,
        }
    }

    fn line(port: u8, header: drives::Header, payload: &[u8], out: &mut [u8]) -> usize {
        // from is its opening byte, to its station, and the code its letter
        let n = header.len;
        listing_text::message_1_2_1(
            port,
            header.opening,
            header.station_first,
            header.station_second,
            header.letter,
            &payload[..n],
            out,
        )
        .unwrap_or(0)
    }
}
