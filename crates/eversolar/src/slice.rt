// The reader of one whole slice: from a place in it the next message or damage, and the place after it. Nothing is kept from call to call.
//
// All bytes are there, so none is held back: AA 55 is looked for, the length behind it says where the frame ends, and the frame is judged where it
// lies, by the streaming reader's own functions.
ghost use Rattle.std.specs.Prelude.{◌+◌, ◌≤◌, ◌≡◌, length};
ghost use Rattle.stream.specs.Call.{lent_least};
ghost use Rattle.stream.specs.Slice.{slice_most};
ghost use Rattle.eversolar.specs.Wire.{payload_max};
ghost use Rattle.eversolar.specs.Slice.{IsAnswerAt};
ghost use Rattle.eversolar.specs.Inside.{MarkFrom, FrameFrom, whole_at, JudgedAt};

use crate::reader::{
    Answer, FIRST_MARK, HEADER, LENGTH_AT, MARKS, PAYLOAD_AT, Reader, SECOND_MARK, SUM, deliver,
    judge_frame,
};
use answers::Refusal;

// The most bytes that a slice may have.
pub const SLICE: usize = 65536;

// The next answer, and the place after it.
#[derive(Clone, Copy)]
pub struct Found {
    pub answer: Answer,
    pub place: usize,
}

// A frame but for its data.
const LEAST: usize = HEADER + SUM;

// The place of the first AA directly followed by 55 from `from` on, if there is one. The byte after an AA is looked at where it stands, so that no AA
// need be remembered. It is never inlined: inlined, it takes 7.0 instructions a byte where no AA is, and not inlined 5.0.
#[inline(never)]
fn mark_from(slice: &[u8], from: usize) -> Option<usize>
    requires { from ≤ length slice.now }
    ensures { MarkFrom slice.now from result }
{
    // a `for` over the range takes 7.0 instructions a byte where no AA is, the `while` 5.0, and C times 1.1 is the bar
    let mut i = from;
    while i + 1 < slice.len() {
        if slice[i] == FIRST_MARK && slice[i + 1] == SECOND_MARK {
            return Some(i);
        }
        i += 1;
    }
    None
}

// Whether all of the frame is there whose AA 55 stands at `mark`.
fn is_whole(slice: &[u8], mark: usize) -> bool
    requires { mark ≤ length slice.now }
    ensures { result ≡ whole_at slice.now mark }
{
    let left = slice.len() - mark;
    if left < LEAST {
        return false;
    }
    let len = usize::from(slice[mark + MARKS + LENGTH_AT]);
    LEAST + len <= left
}

// The place of the first AA 55 from `from` on, if there is one and all of its frame is there.
fn frame_from(slice: &[u8], from: usize) -> Option<usize>
    requires { from ≤ length slice.now }
    ensures { FrameFrom slice.now from result }
{
    let mark = mark_from(slice, from)?;
    is_whole(slice, mark).then_some(mark)
}

// Judges and delivers a frame by its length and the bytes behind its AA 55, at the front of `body`.
fn judge_at(len: usize, body: &[u8], lent: &mut [u8]) -> Answer
    requires { (len ≤ payload_max) × (9 + len ≤ length body.now) × (lent_least ≤ length lent.old) }
    ensures { JudgedAt len body.now lent.old result lent.new }
{
    let answer = judge_frame(len, body[PAYLOAD_AT + 1 + len], body);
    deliver(answer, body, lent);
    answer
}

// The first frame from `place` on, judged; or nothing, where the slice ends before it is whole.
fn answer_from(slice: &[u8], place: usize, lent: &mut [u8]) -> Found
    requires { (length slice.now ≤ slice_most) × (place ≤ length slice.now) × (lent_least ≤ length lent.old) }
    ensures { IsAnswerAt slice.now place lent.old result lent.new }
{
    let Some(mark) = frame_from(slice, place) else {
        return Found {
            answer: Answer::Done,
            place: slice.len(),
        };
    };
    let body = mark + MARKS;
    let len = usize::from(slice[body + LENGTH_AT]);
    let end = mark + LEAST + len;
    let answer = judge_at(len, &slice[body..], lent);
    Found { answer, place: end }
}

// The next message or damage from `place` on, and the place after its last byte, from which a host asks on; where there is none, the end of the slice.
// With a message its data stand at the front of `lent`.
pub fn answer_at(slice: &[u8], place: usize, lent: &mut [u8]) -> Found
    ensures { IsAnswerAt slice.now place lent.old result lent.new }
{
    if SLICE < slice.len() {
        return Found {
            answer: Answer::Refused(Refusal::SliceTooLong),
            place: 0,
        };
    }
    if slice.len() < place {
        return Found {
            answer: Answer::Refused(Refusal::PlacePastEnd),
            place: 0,
        };
    }
    if lent.len() < Reader::LENT {
        return Found {
            answer: Answer::Refused(Refusal::NoRoom),
            place: 0,
        };
    }
    answer_from(slice, place, lent)
}
