// The reader of slices, for a host that has all the bytes at hand: from a place in them the next message or damage, and the place after it.
//
// Nothing is kept from call to call, and no state goes from byte to byte: an opening byte is searched, then the EOT behind it, and the frame is
// judged where it lies, by the functions that judge a held one.
ghost use Rattle.std.specs.Prelude.{◌≤◌, ◌≡◌, ◌==◌, length, position};
ghost use Rattle.stream.specs.Call.{lent_least};
ghost use Rattle.stream.specs.Slice.{slice_most};
ghost use Rattle.drives.specs.Wire.{opens, eot};
ghost use Rattle.drives.specs.Slice.{IsAnswerAt};
ghost use Rattle.drives.specs.Inside.{FrameFrom, FrameRead, AnswerFrom};

use crate::reader::{Answer, COUNT_MAX, EOT, Reader, deliver, judge_frame, opens};
use answers::Refusal;

// The most bytes that a slice may have.
pub const SLICE: usize = 65536;

// The next answer, and the place after it.
#[derive(Clone, Copy)]
pub struct Found {
    pub answer: Answer,
    pub place: usize,
}

// The index of the first opening byte among these. It is never inlined: where it is, the compiler keeps seven addresses up to date at each byte.
#[inline(never)]
fn opening_in(bytes: &[u8]) -> Option<usize>
    ensures { result ≡ position opens bytes.now }
{
    bytes.iter().position(|b| opens(*b))
}

// The index of the first EOT among these.
#[inline(never)]
fn eot_in(bytes: &[u8]) -> Option<usize>
    ensures { result ≡ position (λ b. b == eot) bytes.now }
{
    bytes.iter().position(|b| *b == EOT)
}

// Where a frame stands in a slice: the index of its opening byte, and that of its EOT.
#[derive(Clone, Copy)]
struct Frame {
    opening: usize,
    eot: usize,
}

// The first frame from a place on, if one ends in the slice. What follows an opening byte that ends the slice is no byte, and so no EOT.
fn frame_from(slice: &[u8], place: usize) -> Option<Frame>
    requires { place ≤ length slice.now }
    ensures { FrameFrom slice.now place result }
{
    let opening = place + opening_in(&slice[place..])?;
    let begin = opening + 1;
    let eot = begin + eot_in(&slice[begin..])?;
    Some(Frame { opening, eot })
}

// Judges a frame by its opening byte and the characters between that and its EOT, and delivers its data. The characters are counted as a reader
// counts them: a slice has room for one frame of 65,536 bytes, of which 65,535 are told as lost.
fn read_frame(opening: u8, came: &[u8], lent: &mut [u8]) -> Answer
    requires { lent_least ≤ length lent.old }
    ensures { FrameRead opening came.now lent.old result lent.new }
{
    let count = came.len().min(COUNT_MAX);
    let answer = judge_frame(opening, count, came);
    deliver(answer, came, lent);
    answer
}

// The next answer from a place within the slice.
fn answer_from(slice: &[u8], place: usize, lent: &mut [u8]) -> Found
    requires { (length slice.now ≤ slice_most) × (place ≤ length slice.now) × (lent_least ≤ length lent.old) }
    ensures { AnswerFrom slice.now place lent.old result lent.new }
{
    let Some(frame) = frame_from(slice, place) else {
        return Found {
            answer: Answer::Done,
            place: slice.len(),
        };
    };
    let begin = frame.opening + 1;
    let end = frame.eot;
    let answer = read_frame(slice[frame.opening], &slice[begin..end], lent);
    Found {
        answer,
        place: end + 1,
    }
}

// The next answer from a place on: the first message or damage that the bytes from there hold, or that they hold none. With a message its data
// stand at the front of `lent`.
pub fn answer_at(slice: &[u8], place: usize, lent: &mut [u8]) -> Found
    ensures { IsAnswerAt slice.now place lent.old result lent.new }
{
    if SLICE < slice.len() {
        let answer = Answer::Refused(Refusal::SliceTooLong);
        return Found { answer, place: 0 };
    }
    if slice.len() < place {
        let answer = Answer::Refused(Refusal::PlacePastEnd);
        return Found { answer, place: 0 };
    }
    if lent.len() < Reader::LENT {
        let answer = Answer::Refused(Refusal::NoRoom);
        return Found { answer, place: 0 };
    }
    answer_from(slice, place, lent)
}
