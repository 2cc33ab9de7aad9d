// The reader of slices, for a host that has all the bytes at hand: from a place in them the next message or damage, and the place after it.
//
// Nothing is kept from call to call, and no state goes from byte to byte: the start is searched, then the length behind it, and the frame is
// judged by the functions that judge a held one, with no byte copied first.
ghost use Rattle.std.specs.Prelude.{◌≤◌, ◌≡◌, not, nat_eq, position, length, get_or};
ghost use Rattle.stream.specs.Call.{lent_least};
ghost use Rattle.stream.specs.Slice.{slice_most};
ghost use Rattle.fronius.specs.Wire.{mark};
ghost use Rattle.fronius.specs.Slice.{IsAnswerAt};
ghost use Rattle.fronius.specs.Inside.{StartFrom, PastMarks, IsUsedUp, FrameAt, AnswerFrom};

use crate::reader::{Answer, MARK, PAYLOAD_AT, Reader, STARTS, deliver, judge_frame};
use answers::{Damage, Refusal};

// The most bytes that a slice may have.
pub const SLICE: usize = 65536;

// The next answer, and the place after it.
#[derive(Clone, Copy)]
pub struct Found {
    pub answer: Answer,
    pub place: usize,
}

// The index of the first three successive 80 from `from` on, or the slice's length. What stands before `from` does not count.
// The three are looked at together: where frames follow one another, the first look finds them.
// By `starts_with` a slice with no 80 takes 9 instructions a byte, above the limit of `bench/run searched`, and by its index 7.
fn start_from(slice: &[u8], from: usize) -> usize
    requires { from ≤ length slice.now }
    ensures { StartFrom slice.now from result }
{
    for i in from..slice.len().saturating_sub(STARTS - 1) {
        if (slice[i] == MARK) & (slice[i + 1] == MARK) & (slice[i + 2] == MARK) {
            return i;
        }
    }
    slice.len()
}

// The first index at which no 80 stands.
fn first_other(s: &[u8]) -> Option<usize>
    ensures { result ≡ position (λ b. not (nat_eq b mark)) s.now }
{
    s.iter().position(|b| *b != MARK)
}

// The first index from `from` on where no 80 stands, as none does behind the slice's end.
fn past_marks(slice: &[u8], from: usize) -> usize
    ensures { PastMarks slice.now from result }
{
    let Some(rest) = slice.get(from..) else {
        return from;
    };
    from + first_other(rest).unwrap_or(rest.len())
}

// What is found where no message and no damage is: the bytes are used up.
fn used_up(slice: &[u8]) -> Found
    ensures { IsUsedUp slice.now result }
{
    Found {
        answer: Answer::Done,
        place: slice.len(),
    }
}

// What stands from a length on, behind a start: no whole frame, a length that no message has, or a frame, which is judged where it lies.
fn frame_at(slice: &[u8], at: usize, lent: &mut [u8]) -> Found
    requires { (length slice.now ≤ slice_most) × (lent_least ≤ length lent.old) × (get_or slice.now at 0 ≡ mark → ⊥) }
    ensures { FrameAt slice.now at lent.old result lent.new }
{
    if slice.len() <= at {
        return used_up(slice);
    }
    let len = usize::from(slice[at]);
    let held = at + 1;
    if Reader::PAYLOAD < len {
        return Found {
            // 80 80 80 and the length, whatever 80s came before
            answer: Answer::Damaged {
                what: Damage::WrongLengthByte,
                lost: 4,
            },
            place: held,
        };
    }
    let body = PAYLOAD_AT + len;
    // the checksum, which ends the frame, is not there
    if slice.len() - held <= body {
        return used_up(slice);
    }
    let last = held + body;
    let answer = judge_frame(len, slice[last], &slice[held..]);
    deliver(answer, &slice[held..], lent);
    Found {
        answer,
        place: last + 1,
    }
}

// The next answer from a place within the slice.
fn answer_from(slice: &[u8], place: usize, lent: &mut [u8]) -> Found
    requires { (length slice.now ≤ slice_most) × (place ≤ length slice.now) × (lent_least ≤ length lent.old) }
    ensures { AnswerFrom slice.now place lent.old result lent.new }
{
    let start = start_from(slice, place);
    let at = past_marks(slice, start + STARTS);
    frame_at(slice, at, lent)
}

// The next answer from a place on: the first message or damage that the bytes from there hold, or that they hold none. With a message its data stand at
// the front of `lent`.
pub fn answer_at(slice: &[u8], place: usize, lent: &mut [u8]) -> Found
    ensures { IsAnswerAt slice.now place lent.old result lent.new }
{
    if SLICE < slice.len() {
        let answer = Answer::Refused(Refusal::SliceTooLong);
        return Found { answer, place: 0 };
    }
    if slice.len() < place {
        let answer = Answer::Refused(Refusal::PlacePastEnd);
        return Found { answer, place: 0 };
    }
    if lent.len() < Reader::LENT {
        let answer = Answer::Refused(Refusal::NoRoom);
        return Found { answer, place: 0 };
    }
    answer_from(slice, place, lent)
}
