// The streaming reader: bytes go in by pieces, messages and damages come out, whatever the pieces.
//
// A packet (document 001, section 2.1, table 2-1; the order of the checksum's bytes by Req 03):
//
//     AA 55  | source | destination | control | function | length N | data        | checksum
//     header | 2      | 2           | 1       | 1        | 1        | N, 0 to 255 | 2
//
// What a reader holds are the bytes after AA 55, up to and with the checksum's first. The checksum covers all bytes before it.
ghost use Rattle.std.specs.Prelude.{◌+◌, ◌*◌, ◌≤◌, ◌<◌, ◌≡◌, true, length, take, drop};
ghost use Rattle.stream.specs.Call.{lent_least};
ghost use Rattle.eversolar.specs.Wire.{checksum, payload_max, earlier_of};
ghost use Rattle.numbers.specs.Lists.{total};
ghost use Rattle.eversolar.specs.Machine.{advance_of, held_max, in_range, most};
ghost use Rattle.eversolar.specs.Reader.{IsFresh, IsStep, IsStepInPlace};
ghost use Rattle.eversolar.specs.Inside.{Hunted, Filled, Fits, Runs, event_of, judged_frame, JudgedAs, Small, There, given};

use answers::{Damage, Refusal};
use eversolar_words::word;

// The two bytes that open a frame.
pub(crate) const FIRST_MARK: u8 = 0xAA;

pub(crate) const SECOND_MARK: u8 = 0x55;

// The limits, named here because the reader's own constants cannot size its own array. AA 55, source, destination, control, function and length come
// before the data.
pub(crate) const HEADER: usize = 9;

const PAYLOAD: usize = 255;

// The checksum's two bytes.
pub(crate) const SUM: usize = 2;

const BODY: usize = HEADER + PAYLOAD + SUM;

// AA 55: how many bytes at the front of a frame are not held.
pub(crate) const MARKS: usize = 2;

// What a reader holds at most: all but AA 55 and the checksum's second byte, which ends the frame.
const HELD: usize = BODY - MARKS - 1;

// Where the data begin among the held bytes, right after the length.
pub(crate) const PAYLOAD_AT: usize = HEADER - MARKS;

pub(crate) const LENGTH_AT: usize = PAYLOAD_AT - 1;

// What the bytes read so far have led to. A field that the stage does not use is 0; what `held` has from `count` on is left over and means nothing.
#[derive(Drop)]
pub struct Reader {
    // the bytes since AA 55, as far as they have come
    pub held: [u8; HELD],
    // LOOKING, MARK_SEEN, IN_LEAD or IN_BODY
    pub stage: u8,
    // in the lead and in the body the bytes held
    pub count: usize,
    // in the body the length read
    pub len: usize,
}

// A message, but for its data, which stand at the front of the lent buffer. Addresses are two bytes, as sent.
#[derive(Clone, Copy)]
pub struct Header {
    pub source_first: u8,
    pub source_second: u8,
    pub destination_first: u8,
    pub destination_second: u8,
    pub control: u8,
    pub function: u8,
    // how many data bytes there are
    pub len: usize,
}

#[derive(Clone, Copy)]
pub enum Answer {
    // the piece is used up
    Done,
    Message(Header),
    // what is wrong, and how many bytes are lost with it
    Damaged { what: Damage, lost: u16 },
    Refused(Refusal),
}

// What a call hands back: the reader to go on with, the answer, and how many bytes of the piece were used.
#[derive(Drop)]
pub struct Step {
    pub reader: Reader,
    pub answer: Answer,
    pub used: usize,
}

// What a call over lent held bytes hands back: the rest of the reader to go on with, the answer, and how many bytes of the piece were used.
#[derive(Clone, Copy)]
pub struct StepInPlace {
    pub stage: u8,
    pub count: usize,
    pub len: usize,
    pub answer: Answer,
    pub used: usize,
}

// The four stages: looking for AA; for 55, where AA was the byte before; before the length is known; after.
// They are numbers and no enum, since `IsStepInPlace` has a stage that none of them is handed back as spoilt.
const LOOKING: u8 = 0;

const MARK_SEEN: u8 = 1;

const IN_LEAD: u8 = 2;

const IN_BODY: u8 = 3;

// Whether stage, count and length are in the stage's range.
#[tactic(auto, using(std::proofs::lemmas::Bool::Decides::nat_tests), unfolding(crate::specs::Machine::in_range))]
fn in_range(stage: u8, count: usize, len: usize) -> bool
    ensures { result ≡ in_range stage count len }
{
    match stage {
        LOOKING | MARK_SEEN => count == 0 && len == 0,
        IN_LEAD => count <= LENGTH_AT && len == 0,
        IN_BODY => len <= PAYLOAD && PAYLOAD_AT <= count && count <= PAYLOAD_AT + 1 + len,
        _ => false,
    }
}

// How many bytes since AA 55 are kept before the one that tells the length, or the last.
#[tactic(auto, using(std::proofs::lemmas::Bool::Decides::nat_tests), unfolding(crate::specs::Machine::most))]
fn most_of(stage: u8, len: usize) -> usize
    requires { len ≤ payload_max }
    ensures { (result ≡ most stage len) × (result ≤ held_max) }
{
    if stage == IN_LEAD {
        LENGTH_AT
    } else {
        PAYLOAD_AT + 1 + len
    }
}

// What one byte since AA 55 asks of the reader.
#[derive(Clone, Copy)]
enum Move {
    // one more byte of the lead or the body
    Keep,
    // the length
    Size,
    // the checksum's second byte, which ends the frame
    Close,
}

// Says what a byte since AA 55 asks in a stage. No other function decides what it means.
#[tactic(auto, using(std::proofs::lemmas::Bool::Decides::nat_tests), unfolding(crate::specs::Machine::advance_of))]
fn advance(stage: u8, count: usize, len: usize) -> Move
    requires { len ≤ payload_max }
    ensures { result ≡ advance_of stage count len }
{
    if count < most_of(stage, len) {
        return Move::Keep;
    }
    if stage == IN_LEAD {
        return Move::Size;
    }
    Move::Close
}

// Looks for AA directly followed by 55 from `from` on, and gives the index after the 55; or, where the piece ends before, the stage of looking in
// which it ends. An AA that comes where 55 is looked for may itself open a header.
// It stays a loop left by `break` with what it found: "Forms that the paper names" in docs/DECISIONS.md names this form for the hunt.
fn hunt(stage: u8, piece: &[u8], from: usize) -> Result<usize, u8>
    requires { (from ≤ length piece.now) × (stage < 2) }
    ensures { Hunted stage piece.now from result }
{
    let mut stage = stage;
    let mut i = from;
    let found = loop {
        if piece.len() <= i {
            break Err(stage);
        }
        let b = piece[i];
        i += 1;
        if (stage == MARK_SEEN) & (b == SECOND_MARK) {
            break Ok(i);
        }
        if b == FIRST_MARK {
            stage = MARK_SEEN;
        } else {
            stage = LOOKING;
        }
    };
    found
}

// The end of a frame: so many data bytes are held, and this is the last byte of its checksum.
#[derive(Clone, Copy)]
struct Closed {
    len: usize,
    last: u8,
}

// What a run hands back beside the held bytes. Stage, count and length stand apart here and in calls, as they do in `Reader` and `StepInPlace`:
// a struct of the three would be taken apart and put together at each edge.
#[derive(Clone, Copy)]
struct Ran {
    stage: u8,
    count: usize,
    len: usize,
    used: usize,
    // none where the piece is used up
    end: Option<Closed>,
}

// Takes in bytes from `from` on, whatever they are: as many as are kept and the piece has. Gives the index after the last.
fn fill(
    stage: u8,
    count: usize,
    len: usize,
    held: &mut [u8; HELD],
    piece: &[u8],
    from: usize,
) -> usize
    requires { (2 ≤ stage) × (len ≤ payload_max) × (count < most stage len) × (from < length piece.now) }
    ensures { Filled stage count len held.old piece.now from result held.new }
{
    let n = (piece.len() - from).min(most_of(stage, len) - count);
    let end = from + n;
    held[count..count + n].copy_from_slice(&piece[from..end]);
    end
}

// The piece up to the end of a frame or the end of the piece.
// It is long because each move has its arm here: a call from an arm would have to lend the whole state.
// It stays a `while`, since a turn uses one byte or many, as its arm says: a `for` would go by single bytes.
fn run_in(stage: u8, count: usize, len: usize, held: &mut [u8; HELD], piece: &[u8]) -> Ran
    requires { in_range stage count len ≡ true }
    ensures { Runs stage count len held.old piece.now result held.new }
{
    let mut stage = stage;
    let mut count = count;
    let mut len = len;
    let mut i: usize = 0;
    while i < piece.len() {
        if stage < IN_LEAD {
            match hunt(stage, piece, i) {
                Ok(found) => {
                    stage = IN_LEAD;
                    i = found;
                }
                Err(looking) => {
                    stage = looking;
                    i = piece.len();
                }
            }
        } else {
            match advance(stage, count, len) {
                Move::Keep => {
                    let kept = fill(stage, count, len, held, piece, i);
                    count += kept - i;
                    i = kept;
                }
                Move::Size => {
                    let b = piece[i];
                    held[LENGTH_AT] = b;
                    stage = IN_BODY;
                    count = PAYLOAD_AT;
                    len = usize::from(b);
                    i += 1;
                }
                Move::Close => {
                    let last = piece[i];
                    return Ran {
                        stage: LOOKING,
                        count: 0,
                        len: 0,
                        used: i + 1,
                        end: Some(Closed { len, last }),
                    };
                }
            }
        }
    }
    Ran {
        stage,
        count,
        len,
        used: i,
        end: None,
    }
}

// The bytes of `s` added up. 255 bytes come to less than 65,536, and in 16 bits eight are added at once.
fn total_of(s: &[u8]) -> usize
    requires { length s.now ≤ payload_max }
    ensures { (result ≡ total s.now) × (result ≤ 255 * length s.now) }
{
    let mut sum: u16 = 0;
    for b in s {
        sum += u16::from(*b);
    }
    usize::from(sum)
}

// The checksum of a frame by its length and the bytes since AA 55 at the front of `s`. The length is not looked up in `s`, where a reader may have left anything.
pub(crate) fn checksum_of(len: usize, s: &[u8]) -> u16
    requires { (7 + len ≤ length s.now) × (len ≤ payload_max) }
    ensures { result ≡ checksum (earlier_of (take 6 s.now) len (take len (drop 7 s.now))) }
{
    let marks = usize::from(FIRST_MARK) + usize::from(SECOND_MARK);
    let end = PAYLOAD_AT + len;
    let sum = marks + len + total_of(&s[..LENGTH_AT]) + total_of(&s[PAYLOAD_AT..end]);
    (sum % 65536) as u16
}

// What a frame comes to, by its length, the last byte of its checksum and the bytes between AA 55 and that, at the front of `held`.
pub(crate) fn judge_frame(len: usize, last: u8, held: &[u8]) -> Answer
    requires { (len ≤ payload_max) × (8 + len ≤ length held.now) }
    ensures { JudgedAs (judged_frame len last held.now) result }
{
    let came = word(held[PAYLOAD_AT + len], last);
    if came != checksum_of(len, held) {
        // the whole frame
        let lost = (11 + len) as u16;
        return Answer::Damaged {
            what: Damage::WrongSum,
            lost,
        };
    }
    let header = Header {
        source_first: held[0],
        source_second: held[1],
        destination_first: held[2],
        destination_second: held[3],
        control: held[4],
        function: held[5],
        len,
    };
    Answer::Message(header)
}

// What the end of a run comes to.
fn judge(end: Option<Closed>, held: &[u8; HELD]) -> Answer
    requires { Fits end }
    ensures { JudgedAs (event_of end held.now) result }
{
    match end {
        None => Answer::Done,
        Some(Closed { len, last }) => judge_frame(len, last, held),
    }
}

// A message's data go to the front of the lent buffer.
pub(crate) fn deliver(answer: Answer, held: &[u8], lent: &mut [u8])
    requires { Small answer × There answer held.now × (lent_least ≤ length lent.old) }
    ensures { lent.new ≡ given answer held.now lent.old }
{
    if let Answer::Message(h) = answer {
        let end = PAYLOAD_AT + h.len;
        lent[..h.len].copy_from_slice(&held[PAYLOAD_AT..end]);
    }
}

// The call of `Reader::step` for a host that leaves the held bytes where they are and lends them: none of them is copied. A reader has HELD of
// them, so any other number of them is a spoilt state.
pub fn step_in_place(
    stage: u8,
    count: usize,
    len: usize,
    held: &mut [u8],
    piece: &[u8],
    lent: &mut [u8],
) -> StepInPlace
    ensures { IsStepInPlace stage count len held.old piece.now lent.old result held.new lent.new }
{
    let refused = |why: Refusal| StepInPlace {
        stage,
        count,
        len,
        answer: Answer::Refused(why),
        used: 0,
    };
    let Some(held) = held.as_mut_array::<HELD>() else {
        return refused(Refusal::Spoilt);
    };
    if !in_range(stage, count, len) {
        return refused(Refusal::Spoilt);
    }
    if lent.len() < Reader::LENT {
        return refused(Refusal::NoRoom);
    }
    let ran = run_in(stage, count, len, held, piece);
    let answer = judge(ran.end, &*held);
    deliver(answer, &*held, lent);
    StepInPlace {
        stage: ran.stage,
        count: ran.count,
        len: ran.len,
        answer,
        used: ran.used,
    }
}

impl Reader {
    // the bytes before a message's data, start marks included
    pub const HEADER: usize = HEADER;
    // the data bytes that a message has at most
    pub const PAYLOAD: usize = PAYLOAD;
    // the bytes that a message has at most on the wire, with header, data and checksum, but without flags and stuffing
    pub const BODY: usize = BODY;
    // the bytes that a host lends at least, whatever the family
    pub const LENT: usize = 255;

    // The reader before the first byte.
    pub fn fresh() -> Self
        ensures { IsFresh result }
    {
        Reader {
            held: [0; HELD],
            stage: LOOKING,
            count: 0,
            len: 0,
        }
    }

    // One call on a piece: up to the first message or damage, or to the piece's end. With a message its data stand at the front of `lent`.
    pub fn step(self, piece: &[u8], lent: &mut [u8]) -> Step
        ensures { IsStep self piece.now lent.old result lent.new }
    {
        let mut held = self.held;
        let s = step_in_place(self.stage, self.count, self.len, &mut held, piece, lent);
        let reader = Reader {
            held,
            stage: s.stage,
            count: s.count,
            len: s.len,
        };
        let answer = s.answer;
        Step {
            reader,
            answer,
            used: s.used,
        }
    }
}
