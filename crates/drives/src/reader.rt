// The streaming reader: bytes go in by pieces, messages and damages come out, whatever the pieces.
//
// A frame (document 003, "Error Response" and the example below it), all but its two ends in printable characters:
//
//     05, 06 or 15       | station | letter     | data                       | sum | 04
//     ENQ, ACK or NAK, 1 | 2       | R, W, X, Y | 0 to 37, in a reply 0 to 32 | 2   | EOT, 1
//
// What a reader holds are the characters between opening byte and EOT. The sum covers station, letter and data.
ghost use Rattle.std.specs.Prelude.{◌+◌, ◌≤◌, ◌<◌, min, ◌≡◌, true, length, take};
ghost use Rattle.std.proofs.Math.Option.{some};
ghost use Rattle.answers.specs.declared.Damage.{Damage};
ghost use Rattle.stream.specs.Call.{lent_least};
ghost use Rattle.drives.specs.Wire.{opens, is_hex, all_hex, is_letter, proper, frame_most, checksum, hex_digit};
ghost use Rattle.drives.specs.Rules.{sized, agrees};
ghost use Rattle.drives.specs.Machine.{held_max, count_max, advance_of, in_range, closed};
ghost use Rattle.drives.specs.Reader.{IsFresh, IsStep, IsStepInPlace};
ghost use Rattle.drives.specs.Inside.{Filled, Fits, Runs, event_of, JudgedAs, Small, There, given};
ghost use Rattle.drives.specs.declared.reader.Answer.TheVariants.{Damaged};

use answers::{Damage, Refusal};

// The limits, named here because the reader's own constants cannot size its own array. Opening byte, station and letter come before the data.
const HEADER: usize = 4;

// The data characters that a request has at most.
const PAYLOAD: usize = 37;

// The two characters of the sum.
const SUM: usize = 2;

// EOT's one byte.
const END: usize = 1;

const BODY: usize = HEADER + PAYLOAD + SUM + END;

// What a reply has at most in all.
const REPLY: usize = 39;

// What a frame has at least: the longest, without its data.
pub(crate) const LEAST: usize = Reader::BODY - Reader::PAYLOAD;

// The opening byte, which is the stage and is not held.
pub(crate) const OPENING: usize = 1;

// Opening byte and EOT: how many bytes of a frame are not held.
const UNHELD: usize = OPENING + END;

// What a reader holds at most: all but these.
const HELD: usize = BODY - UNHELD;

// Where the data begin among the held bytes.
const PAYLOAD_AT: usize = HEADER - OPENING;

// What the bytes read so far have led to. Where no frame is open `count` is 0. What `held` has beyond the characters held is left over and means nothing.
#[derive(Drop)]
pub struct Reader {
    // the characters since the opening byte, as far as they have come and there is room
    pub held: [u8; HELD],
    // LOOKING, or in a frame its opening byte
    pub stage: u8,
    // how many characters have come since the opening byte: COUNT_MAX stands for that or more
    pub count: usize,
}

// A message, but for its data, which stand at the front of the lent buffer. All are characters as they were sent.
#[derive(Clone, Copy)]
pub struct Header {
    pub opening: u8,
    pub station_first: u8,
    pub station_second: u8,
    pub letter: u8,
    // how many data characters there are
    pub len: usize,
}

#[derive(Clone, Copy)]
pub enum Answer {
    // the piece is used up
    Done,
    Message(Header),
    // what is wrong, and how many bytes are lost with it
    Damaged { what: Damage, lost: u16 },
    Refused(Refusal),
}

// What a call hands back: the reader to go on with, the answer, and how many bytes of the piece were used.
#[derive(Drop)]
pub struct Step {
    pub reader: Reader,
    pub answer: Answer,
    pub used: usize,
}

// What a call over lent held bytes hands back: the rest of the reader to go on with, the answer, and how many bytes of the piece were used.
#[derive(Clone, Copy)]
pub struct StepInPlace {
    pub stage: u8,
    pub count: usize,
    pub answer: Answer,
    pub used: usize,
}

// The stage in which an opening byte is looked for. In a frame the stage is its opening byte. It is a number and no enum, since a host may hand over
// one that is no stage, which is refused with 18 (`in_range`).
const LOOKING: u8 = 0;

// The number of characters that stands for itself or more: with opening byte and EOT it is 65,535, the most that is told as lost.
pub(crate) const COUNT_MAX: usize = 65535 - UNHELD;

// What opens a request, a reply and an error reply, and what ends each.
const ENQ: u8 = 0x05;

const ACK: u8 = 0x06;

const NAK: u8 = 0x15;

pub(crate) const EOT: u8 = 0x04;

// Whether a byte opens a frame.
#[tactic(auto, unfolding(crate::specs::Wire::opens))]
pub(crate) fn opens(b: u8) -> bool
    ensures { result ≡ opens b }
{
    (b == ENQ) | (b == ACK) | (b == NAK)
}

// Whether stage and count are in the stage's range.
#[tactic(auto, unfolding(crate::specs::Machine::in_range))]
fn in_range(stage: u8, count: usize) -> bool
    ensures { result ≡ in_range stage count }
{
    if stage == LOOKING {
        return count == 0;
    }
    if !opens(stage) {
        return false;
    }
    count <= COUNT_MAX
}

// What one byte asks of the reader.
#[derive(Clone, Copy)]
enum Move {
    // nothing
    Skip,
    // a frame begins, and this byte is its opening byte
    Open,
    // one more character
    Keep,
    // one more than there is room for
    Over,
    // EOT, which ends the frame
    Close,
}

// Says what a byte asks in a stage. Beside it only `fill` decides what a byte means.
#[tactic(auto, unfolding(crate::specs::Machine::advance_of))]
fn advance(stage: u8, count: usize, b: u8) -> Move
    ensures { result ≡ advance_of stage count b }
{
    if stage == LOOKING {
        if opens(b) {
            return Move::Open;
        }
        return Move::Skip;
    }
    if b == EOT {
        return Move::Close;
    }
    if count < HELD {
        return Move::Keep;
    }
    Move::Over
}

// A frame at its EOT: its opening byte, and how many characters came behind that.
#[derive(Clone, Copy)]
struct Closed {
    opening: u8,
    count: usize,
}

// What a run hands back beside the held bytes. It ends at the EOT of a frame, or where the piece is used up.
#[derive(Clone, Copy)]
struct Ran {
    stage: u8,
    count: usize,
    used: usize,
    end: Option<Closed>,
}

// Takes in characters from `from` on while there is room, up to an EOT; gives the index after the last.
fn fill(count: usize, held: &mut [u8; HELD], piece: &[u8], from: usize) -> usize
    requires { (count ≤ held_max) × (from ≤ length piece.now) }
    ensures { Filled count held.old piece.now from result held.new }
{
    let stop = from + (piece.len() - from).min(HELD - count);
    for (n, &b) in piece[from..stop].iter().enumerate() {
        if b == EOT {
            return from + n;
        }
        held[count + n] = b;
    }
    stop
}

// The piece, byte by byte, up to an EOT that ends a frame or the end of the piece.
// It is long because each move has its arm here: a call from an arm would have to lend the whole state. It is no `for`, since a turn uses as many
// bytes as `fill` takes in.
fn run_in(stage: u8, count: usize, held: &mut [u8; HELD], piece: &[u8]) -> Ran
    requires { in_range stage count ≡ true }
    ensures { Runs stage count held.old piece.now result held.new }
{
    let mut stage = stage;
    let mut count = count;
    let mut i: usize = 0;
    while i < piece.len() {
        let b = piece[i];
        let m = advance(stage, count, b);
        i += 1;
        match m {
            Move::Skip => {}
            Move::Open => {
                stage = b;
                count = 0;
            }
            Move::Keep => {
                held[count] = b;
                let next = count + 1;
                let j = fill(next, held, piece, i);
                count = next + (j - i);
                i = j;
            }
            Move::Over => {
                count = (count + 1).min(COUNT_MAX);
            }
            Move::Close => {
                let closed = Closed {
                    opening: stage,
                    count,
                };
                return Ran {
                    stage: LOOKING,
                    count: 0,
                    used: i,
                    end: Some(closed),
                };
            }
        }
    }
    Ran {
        stage,
        count,
        used: i,
        end: None,
    }
}

// Whether a character is 0 to 9 or A to F.
#[tactic(auto, unfolding(crate::specs::Wire::is_hex))]
pub(crate) fn is_hex(c: u8) -> bool
    ensures { result ≡ is_hex c }
{
    ((b'0' <= c) & (c <= b'9')) | ((b'A' <= c) & (c <= b'F'))
}

// Whether they all are. Every character is tested, so that 16 are tested at once.
pub(crate) fn all_hex(s: &[u8]) -> bool
    ensures { result ≡ all_hex s.now }
{
    let mut good = true;
    for c in s {
        good &= is_hex(*c);
    }
    good
}

// Whether a character is R, W, X or Y.
#[tactic(auto, unfolding(crate::specs::Wire::is_letter))]
pub(crate) fn is_letter(c: u8) -> bool
    ensures { result ≡ is_letter c }
{
    matches!(c, b'R' | b'W' | b'X' | b'Y')
}

// What a frame with this opening byte has at most.
#[tactic(auto, unfolding(crate::specs::Wire::frame_most))]
pub(crate) fn frame_most(opening: u8) -> usize
    ensures { result ≡ frame_most opening }
{
    if opening == ENQ { Reader::BODY } else { REPLY }
}

// Whether a frame may have `n` bytes.
#[tactic(auto, unfolding(crate::specs::Rules::sized))]
fn sized(opening: u8, n: usize) -> bool
    ensures { result ≡ sized opening n }
{
    (LEAST <= n) & (n <= frame_most(opening))
}

// Whether each of the first `count` held characters is in its set.
fn proper(count: usize, held: &[u8]) -> bool
    requires { (5 ≤ count) × (count ≤ length held.now) }
    ensures { result ≡ proper (take count held.now) }
{
    let rest = all_hex(&held[PAYLOAD_AT..count]);
    is_hex(held[0]) & is_hex(held[1]) & is_letter(held[2]) & rest
}

// The characters added up, modulo 256, so that 16 are added at once.
pub(crate) fn checksum_of(s: &[u8]) -> u8
    ensures { result ≡ checksum s.now }
{
    let mut sum: u8 = 0;
    for c in s {
        sum = sum.wrapping_add(*c);
    }
    sum
}

// The character of a number below 16.
#[tactic(auto, unfolding(crate::specs::Wire::hex_digit))]
pub(crate) fn digit(n: u8) -> u8
    requires { n < 16 }
    ensures { result ≡ hex_digit n }
{
    if n < 10 { 0x30 + n } else { 0x37 + n }
}

// Whether the last two of the first `count` held characters are the sum of those before them.
fn agrees(count: usize, held: &[u8]) -> bool
    requires { (5 ≤ count) × (count ≤ length held.now) }
    ensures { result ≡ agrees (take count held.now) }
{
    let k = count - SUM;
    let sum = checksum_of(&held[0..k]);
    (held[k] == digit(sum / 16)) & (held[k + 1] == digit(sum % 16))
}

// A damage of a frame behind whose opening byte `count` characters came.
fn damaged(what: Damage, count: usize) -> Answer
    requires { count ≤ count_max }
    ensures { result ≡ Damaged what (count + 2) }
{
    let lost = (count + UNHELD) as u16;
    Answer::Damaged { what, lost }
}

// The checks of a frame in order, by its opening byte and the `count` characters behind it. Of those there need be no more than a message may have.
pub(crate) fn judge_frame(opening: u8, count: usize, held: &[u8]) -> Answer
    requires { (count ≤ count_max) × (min count held_max ≤ length held.now) }
    ensures { JudgedAs (some (closed opening count held.now)) result }
{
    if !sized(opening, count + UNHELD) {
        return damaged(Damage::WrongBodyLength, count);
    }
    if !proper(count, held) {
        return damaged(Damage::WrongCharacter, count);
    }
    if !agrees(count, held) {
        return damaged(Damage::WrongSum, count);
    }
    let header = Header {
        opening,
        station_first: held[0],
        station_second: held[1],
        letter: held[2],
        len: count - (PAYLOAD_AT + SUM),
    };
    Answer::Message(header)
}

// What the end of a run comes to.
fn judge(end: Option<Closed>, held: &[u8; HELD]) -> Answer
    requires { Fits end }
    ensures { JudgedAs (event_of end held.now) result }
{
    match end {
        Some(closed) => judge_frame(closed.opening, closed.count, held),
        None => Answer::Done,
    }
}

// A message's data go to the front of the lent buffer.
pub(crate) fn deliver(answer: Answer, held: &[u8], lent: &mut [u8])
    requires { Small answer × There answer held.now × (lent_least ≤ length lent.old) }
    ensures { lent.new ≡ given answer held.now lent.old }
{
    if let Answer::Message(h) = answer {
        let end = PAYLOAD_AT + h.len;
        lent[..h.len].copy_from_slice(&held[PAYLOAD_AT..end]);
    }
}

// The call of `Reader::step` for a host that leaves the held bytes where they are and lends them: none of them is copied. A reader has HELD of
// them, so any other number of them is a spoilt state.
pub fn step_in_place(
    stage: u8,
    count: usize,
    held: &mut [u8],
    piece: &[u8],
    lent: &mut [u8],
) -> StepInPlace
    ensures { IsStepInPlace stage count held.old piece.now lent.old result held.new lent.new }
{
    let whole = (held.len() == HELD) & in_range(stage, count);
    if !whole {
        let answer = Answer::Refused(Refusal::Spoilt);
        return StepInPlace {
            stage,
            count,
            answer,
            used: 0,
        };
    }
    if lent.len() < Reader::LENT {
        let answer = Answer::Refused(Refusal::NoRoom);
        return StepInPlace {
            stage,
            count,
            answer,
            used: 0,
        };
    }
    let Some(held) = held.as_mut_array() else {
        unreachable!()
    };
    let ran = run_in(stage, count, held, piece);
    let answer = judge(ran.end, &*held);
    deliver(answer, &*held, lent);
    StepInPlace {
        stage: ran.stage,
        count: ran.count,
        answer,
        used: ran.used,
    }
}

impl Reader {
    // the bytes before a message's data, the opening byte included
    pub const HEADER: usize = HEADER;
    // the data characters that a message has at most
    pub const PAYLOAD: usize = PAYLOAD;
    // the bytes that a message has at most on the wire, with header, data, sum and EOT
    pub const BODY: usize = BODY;
    // the bytes that a host lends at least, whatever the family
    pub const LENT: usize = 255;

    // The reader before the first byte.
    pub fn fresh() -> Self
        ensures { IsFresh result }
    {
        Reader {
            held: [0; HELD],
            stage: LOOKING,
            count: 0,
        }
    }

    // One call on a piece: up to the first message or damage, or to the piece's end. With a message its data stand at the front of `lent`.
    pub fn step(self, piece: &[u8], lent: &mut [u8]) -> Step
        ensures { IsStep self piece.now lent.old result lent.new }
    {
        let mut held = self.held;
        let s = step_in_place(self.stage, self.count, &mut held, piece, lent);
        let reader = Reader {
            held,
            stage: s.stage,
            count: s.count,
        };
        Step {
            reader,
            answer: s.answer,
            used: s.used,
        }
    }
}
