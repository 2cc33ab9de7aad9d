// One whole stretch, the bytes between two successive flags: unstuffed, judged and handed over, with no state before or after it.
//
// Most have no escape, and such a stretch is judged where it lies. What any other stands for is taken in by parts: up to the next escape all bytes
// stand for themselves.
ghost use Rattle.std.specs.Prelude.{◌<◌, ◌≤◌, ◌≡◌, length};
ghost use Rattle.stream.specs.Call.{lent_least};
ghost use Rattle.comlynx.specs.Wire.{escape};
ghost use Rattle.comlynx.specs.Stretch.{IsJudged};
ghost use Rattle.comlynx.specs.Inside.{Absent, FirstAt, Roomy, Keeps, pair_at, Unstuffs, Settles};

use crate::reader::{
    Answer, Closed, ESCAPE, ESCAPE_PAIR, FLAG, FLAG_PAIR, Reader, TOO_MANY, deliver, judge,
    judge_closed, plus,
};
use crate::search::byte_from;
use answers::Refusal;

// Takes in more bytes of the body, where there is room for all of them. Gives how many are held then, or none: a stretch that has more than a body may
// have is a damage, whatever is held of it.
fn keep_part(count: Option<usize>, held: &mut [u8; Reader::BODY], part: &[u8]) -> Option<usize>
    requires { Roomy count }
    ensures { Keeps count held.old part.now result held.new }
{
    let count = count?;
    if Reader::BODY - count < part.len() {
        return None;
    }
    let end = count + part.len();
    held[count..end].copy_from_slice(part);
    Some(end)
}

// What the escape at `at` and the byte after it stand for; none where the pair is broken.
fn pair_at(stretch: &[u8], at: usize) -> Option<u8>
    requires { at < length stretch.now }
    ensures { result ≡ pair_at stretch.now at }
{
    if stretch.len() - at < 2 {
        return None;
    }
    let b = stretch[at + 1];
    if b == FLAG_PAIR {
        return Some(FLAG);
    }
    if b == ESCAPE_PAIR {
        return Some(ESCAPE);
    }
    None
}

// Unstuffs a stretch into `held`, and says how it ends; its first escape stands at `first`. It is searched for a broken pair to its end, however
// long it is. It goes from escape to escape, so that no range is what it counts.
fn unstuff(stretch: &[u8], first: usize, held: &mut [u8; Reader::BODY]) -> Closed
    requires { FirstAt escape stretch.now 0 first }
    ensures { Unstuffs stretch.now result held.new }
{
    let came = plus(0, stretch.len());
    let mut count = keep_part(Some(0), held, &stretch[..first]);
    let mut i = first;
    while i < stretch.len() {
        let Some(v) = pair_at(stretch, i) else {
            return Closed::Broken { came };
        };
        let more = keep_part(count, held, &[v]);
        let next = i + 2;
        i = byte_from::<ESCAPE>(stretch, next);
        count = keep_part(more, held, &stretch[next..i]);
    }
    Closed::Whole {
        count: count.unwrap_or(TOO_MANY),
        came,
    }
}

// Judges a stretch whose first escape stands at `first`, and hands its data over. It is unstuffed for that.
fn judge_stuffed(stretch: &[u8], first: usize, lent: &mut [u8]) -> Answer
    requires { FirstAt escape stretch.now 0 first × (lent_least ≤ length lent.old) }
    ensures { Settles stretch.now lent.old result lent.new }
{
    let mut held = [0; Reader::BODY];
    let end = unstuff(stretch, first, &mut held);
    let answer = judge(end, &held);
    deliver(answer, &held, lent);
    answer
}

// The same of a stretch without an escape. It is its own body, so none of it is copied but the data.
fn judge_plain(stretch: &[u8], lent: &mut [u8]) -> Answer
    requires { Absent escape stretch.now 0 (length stretch.now) × (lent_least ≤ length lent.old) }
    ensures { Settles stretch.now lent.old result lent.new }
{
    let count = stretch.len().min(TOO_MANY);
    let answer = judge_closed(count, plus(0, stretch.len()), stretch);
    deliver(answer, stretch, lent);
    answer
}

// Judges one whole stretch, handed over without its flags. With a message its data stand at the front of `lent`; an empty stretch gives nothing.
pub fn judge_stretch(stretch: &[u8], lent: &mut [u8]) -> Answer
    ensures { IsJudged stretch.now lent.old result lent.new }
{
    if lent.len() < Reader::LENT {
        return Answer::Refused(Refusal::NoRoom);
    }
    if stretch.len() == 0 {
        return Answer::Done;
    }
    let first = byte_from::<ESCAPE>(stretch, 0);
    if first < stretch.len() {
        return judge_stuffed(stretch, first, lent);
    }
    judge_plain(stretch, lent)
}
