// The reader of one whole slice: from a place in it the next message or damage, and the place after it. It searches for the flags and judges the stretch
// between two of them; nothing is kept from byte to byte, nor from call to call.
ghost use Rattle.std.specs.Prelude.{◌≤◌, ◌≡◌, length};
ghost use Rattle.stream.specs.Call.{lent_least};
ghost use Rattle.comlynx.specs.Slice.{known_at, IsAnswerAt};
ghost use Rattle.comlynx.specs.Inside.{Opened, PastFlags, AnswerFrom};

use crate::reader::{Answer, FLAG, Reader};
use crate::search::byte_from;
use crate::stretch::judge_stretch;
use answers::Refusal;

// The most bytes that a slice may have.
pub const SLICE: usize = 65536;

// The next answer, and the place after it.
#[derive(Clone, Copy)]
pub struct Found {
    pub answer: Answer,
    pub place: usize,
}

// Whether the byte before a place is a flag, which counts as just seen.
fn after_flag(slice: &[u8], place: usize) -> bool
    requires { place ≤ length slice.now }
    ensures { result ≡ known_at slice.now place }
{
    if place == 0 {
        return false;
    }
    slice[place - 1] == FLAG
}

// Where a stretch begins, or the flag before it stands: at the place itself where a flag was just seen, else at the first flag from there on.
fn opened(slice: &[u8], place: usize) -> usize
    requires { place ≤ length slice.now }
    ensures { Opened slice.now place result }
{
    if after_flag(slice, place) {
        return place;
    }
    byte_from::<FLAG>(slice, place)
}

// Passes over flags: between two of them that stand side by side is an empty stretch, which gives nothing.
fn past_flags(slice: &[u8], from: usize) -> usize
    requires { from ≤ length slice.now }
    ensures { PastFlags slice.now from result }
{
    for i in from..slice.len() {
        if slice[i] != FLAG {
            return i;
        }
    }
    slice.len()
}

// The first stretch from a place on that is not empty, judged.
fn answer_from(slice: &[u8], place: usize, lent: &mut [u8]) -> Found
    requires { (place ≤ length slice.now) × (lent_least ≤ length lent.old) }
    ensures { AnswerFrom slice.now place lent.old result lent.new }
{
    let first = past_flags(slice, opened(slice, place));
    let close = byte_from::<FLAG>(slice, first);
    if slice.len() <= close {
        let answer = Answer::Done;
        return Found {
            answer,
            place: slice.len(),
        };
    }
    let answer = judge_stretch(&slice[first..close], lent);
    Found {
        answer,
        place: close + 1,
    }
}

// One ask: the next answer from a place of the slice. With a message its data stand at the front of `lent`. A place that was given may be asked from
// again; at the slice's end the answer is `Done`.
pub fn answer_at(slice: &[u8], place: usize, lent: &mut [u8]) -> Found
    ensures { IsAnswerAt slice.now place lent.old result lent.new }
{
    if SLICE < slice.len() {
        let answer = Answer::Refused(Refusal::SliceTooLong);
        return Found { answer, place: 0 };
    }
    if slice.len() < place {
        let answer = Answer::Refused(Refusal::PlacePastEnd);
        return Found { answer, place: 0 };
    }
    if lent.len() < Reader::LENT {
        let answer = Answer::Refused(Refusal::NoRoom);
        return Found { answer, place: 0 };
    }
    answer_from(slice, place, lent)
}
