// The streaming reader: bytes go in by pieces, messages and damages come out, whatever the pieces.
//
// A frame (document 002, table of the fields of a data structure; Start to Checksum):
//
//     80 80 80 | length | device | number | command | data           | checksum
//     start    | 1      | 1      | 1      | 1       | length, 0..127 | 1
//
// What a reader holds are device, number, command and data. The checksum covers all but the start and itself.
ghost use Rattle.std.specs.Prelude.{◌+◌, ◌%◌, ◌≤◌, ◌≡◌, true, ◌∷◌, length, take};
ghost use Rattle.stream.specs.Call.{lent_least};
ghost use Rattle.fronius.specs.Wire.{payload_max, checksum};
ghost use Rattle.numbers.specs.Lists.{total};
ghost use Rattle.fronius.specs.Machine.{advance_of, in_range};
ghost use Rattle.fronius.specs.Reader.{IsFresh, IsStep, IsStepInPlace};
ghost use Rattle.fronius.specs.Inside.{Filled, Opens, Enters, Fits, Runs, event_of, judged_frame, JudgedAs, Small, There, given};

use answers::{Damage, Refusal};

// The limits, named here because the reader's own constants cannot size its own array. 80 80 80, length, device, number and command come before the data.
const HEADER: usize = 7;

const PAYLOAD: usize = 127;

// The checksum's one byte.
const SUM: usize = 1;

const BODY: usize = HEADER + PAYLOAD + SUM;

// 80 80 80 and the length: how many bytes at the front of a frame are not held.
pub(crate) const UNHELD: usize = 4;

// What a reader holds at most: all but these and the checksum, which ends the frame.
const HELD: usize = BODY - UNHELD - SUM;

// Where the data begin among the held bytes.
pub(crate) const PAYLOAD_AT: usize = HEADER - UNHELD;

// What the bytes read so far have led to. At the start `len` is 0 and no byte is held. What `held` has beyond the bytes held is left over and means nothing.
#[derive(Drop)]
pub struct Reader {
    // device, number, command and data, as far as they have come
    pub held: [u8; HELD],
    // AT_START or IN_BODY
    pub stage: u8,
    // at the start the successive 80s seen, 3 where the length is awaited; in the body the bytes held
    pub count: usize,
    // in the body the length read
    pub len: usize,
}

// A message, but for its data, which stand at the front of the lent buffer.
#[derive(Clone, Copy)]
pub struct Header {
    pub device: u8,
    pub number: u8,
    pub command: u8,
    // how many data bytes there are
    pub len: usize,
}

#[derive(Clone, Copy)]
pub enum Answer {
    // the piece is used up
    Done,
    Message(Header),
    // what is wrong, and how many bytes are lost with it
    Damaged { what: Damage, lost: u16 },
    Refused(Refusal),
}

// What a call hands back: the reader to go on with, the answer, and how many bytes of the piece were used.
#[derive(Drop)]
pub struct Step {
    pub reader: Reader,
    pub answer: Answer,
    pub used: usize,
}

// What a call over lent held bytes hands back: the rest of the reader to go on with, the answer, and how many bytes of the piece were used.
#[derive(Clone, Copy)]
pub struct StepInPlace {
    pub stage: u8,
    pub count: usize,
    pub len: usize,
    pub answer: Answer,
    pub used: usize,
}

// The two stages: numbers and no enum, since a host may hand back a stage that is neither, and is refused by `IsStepInPlace`.
const AT_START: u8 = 0;

const IN_BODY: u8 = 1;

// The byte of which three make a start, and how many do.
pub(crate) const MARK: u8 = 0x80;

pub(crate) const STARTS: usize = 3;

// Where a reader stands: all of it but the bytes held.
#[derive(Clone, Copy)]
struct State {
    stage: u8,
    count: usize,
    len: usize,
}

// What one byte asks of the reader.
#[derive(Clone, Copy)]
enum Move {
    // so many successive 80s
    Count(usize),
    // a body of so many data bytes begins
    Open(usize),
    // one more byte of the body
    Keep,
    // the checksum, which ends the frame
    Close,
    // a length that no message has
    Bad,
}

impl State {
    // where no byte of a start has come
    const FRESH: State = State {
        stage: AT_START,
        count: 0,
        len: 0,
    };

    // Whether count and length are in the stage's range.
    fn in_range(self) -> bool
        ensures { result ≡ in_range self.stage self.count self.len }
    {
        if self.stage == AT_START {
            if STARTS < self.count {
                return false;
            }
            return self.len == 0;
        }
        if self.stage != IN_BODY {
            return false;
        }
        if PAYLOAD < self.len {
            return false;
        }
        self.count <= PAYLOAD_AT + self.len
    }

    // Says what a byte asks. Beside it only `opens` decides what a byte means.
    fn advance(self, b: u8) -> Move
        requires { self.len ≤ payload_max }
        ensures { result ≡ advance_of self.stage self.count self.len b }
    {
        if self.stage == AT_START {
            if self.count < STARTS {
                if b == MARK {
                    return Move::Count(self.count + 1);
                }
                return Move::Count(0);
            }
            if b == MARK {
                return Move::Count(STARTS);
            }
            if b < MARK {
                return Move::Open(usize::from(b));
            }
            return Move::Bad;
        }
        if self.count < PAYLOAD_AT + self.len {
            return Move::Keep;
        }
        Move::Close
    }
}

// How a run over a piece ended.
#[derive(Clone, Copy)]
enum End {
    UsedUp,
    // a frame of so many data bytes is held, and this is the checksum that came
    Closed { len: usize, sum: u8 },
    BadLength,
}

// What a run hands back beside the held bytes.
#[derive(Clone, Copy)]
struct Ran {
    state: State,
    used: usize,
    end: End,
}

// Takes in bytes of the body from `from` on, whatever they are: as many as it still lacks and the piece has. Gives the index after the last.
// Where there are none, as in pieces of one byte, no copy is called: `bench/run in_place` counts 17 instructions for each such call.
fn fill(count: usize, len: usize, held: &mut [u8; HELD], piece: &[u8], from: usize) -> usize
    requires { (count ≤ 3 + len) × (len ≤ payload_max) × (from ≤ length piece.now) }
    ensures { Filled count len held.old piece.now from result held.new }
{
    let n = (piece.len() - from).min(PAYLOAD_AT + len - count);
    if n == 0 {
        return from;
    }
    let stop = from + n;
    held[count..count + n].copy_from_slice(&piece[from..stop]);
    stop
}

// Whether the piece begins with a whole start and a length, where a start is looked for. How many 80s came before makes no difference then.
fn opens(stage: u8, piece: &[u8]) -> bool
    ensures { result ≡ true → Opens stage piece.now }
{
    if stage != AT_START {
        return false;
    }
    if piece.len() < UNHELD {
        return false;
    }
    if !piece.starts_with(&[MARK; STARTS]) {
        return false;
    }
    piece[3] < MARK
}

// Takes in the body behind a start and a length at the front of the piece, as far as it is there. Gives the index after the last byte taken.
// A header alone is stored byte by byte: the compiler makes a call of the copy in `fill`, which takes longer than three stores.
fn take_body(len: usize, held: &mut [u8; HELD], piece: &[u8]) -> usize
    requires { (len ≤ payload_max) × (4 ≤ length piece.now) }
    ensures { Filled 0 len held.old piece.now 4 result held.new }
{
    if HEADER <= piece.len() {
        if len == 0 {
            held[0] = piece[4];
            held[1] = piece[5];
            held[2] = piece[6];
            return HEADER;
        }
    }
    fill(0, len, held, piece, UNHELD)
}

// The state to go on in byte by byte, and the index to go on from.
#[derive(Clone, Copy)]
struct Entered {
    state: State,
    at: usize,
}

// Takes in at once a whole start, a length and the body behind them, where the piece begins with them: so it does where frames follow one another.
fn enter(state: State, held: &mut [u8; HELD], piece: &[u8]) -> Entered
    requires { in_range state.stage state.count state.len ≡ true }
    ensures { Enters state held.old piece.now result held.new }
{
    if !opens(state.stage, piece) {
        return Entered { state, at: 0 };
    }
    let len = usize::from(piece[3]);
    let at = take_body(len, held, piece);
    let state = State {
        stage: IN_BODY,
        count: at - UNHELD,
        len,
    };
    Entered { state, at }
}

// The piece, but for what `enter` takes of it, byte by byte, up to the end of a frame, a bad length or the end of the piece.
// It is long because each move has its arm here: a call from an arm would have to lend the whole state. It counts its index by hand, since a
// turn that keeps a byte also takes in those that `fill` finds behind it.
fn run_in(state: State, held: &mut [u8; HELD], piece: &[u8]) -> Ran
    requires { in_range state.stage state.count state.len ≡ true }
    ensures { Runs state held.old piece.now result held.new }
{
    let entered = enter(state, held, piece);
    let mut state = entered.state;
    let mut i = entered.at;
    while i < piece.len() {
        let b = piece[i];
        let m = state.advance(b);
        i += 1;
        match m {
            Move::Count(n) => {
                state.count = n;
            }
            Move::Open(len) => {
                state = State {
                    stage: IN_BODY,
                    count: 0,
                    len,
                };
            }
            Move::Keep => {
                held[state.count] = b;
                let next = state.count + 1;
                let j = fill(next, state.len, held, piece, i);
                state.count = next + (j - i);
                i = j;
            }
            Move::Close => {
                let end = End::Closed {
                    len: state.len,
                    sum: b,
                };
                return Ran {
                    state: State::FRESH,
                    used: i,
                    end,
                };
            }
            Move::Bad => {
                let end = End::BadLength;
                return Ran {
                    state: State::FRESH,
                    used: i,
                    end,
                };
            }
        }
    }
    let end = End::UsedUp;
    Ran {
        state,
        used: i,
        end,
    }
}

// The bytes of `s` added up, modulo 256 at each step, so that 16 are added at once.
fn total_of(s: &[u8]) -> u8
    ensures { result ≡ total s.now % 256 }
{
    let mut sum: u8 = 0;
    for b in s {
        sum = sum.wrapping_add(*b);
    }
    sum
}

// The checksum over a length and the body of that length at the front of `s`.
pub(crate) fn checksum_of(len: usize, s: &[u8]) -> u8
    requires { (3 + len ≤ length s.now) × (len ≤ payload_max) }
    ensures { result ≡ checksum (len ∷ take (3 + len) s.now) }
{
    let sum = len + usize::from(total_of(&s[..PAYLOAD_AT + len]));
    (sum % 256) as u8
}

// What a frame comes to, by its length, the checksum that came and the bytes held of it, which stand at the front of `held`.
pub(crate) fn judge_frame(len: usize, sum: u8, held: &[u8]) -> Answer
    requires { (len ≤ payload_max) × (3 + len ≤ length held.now) }
    ensures { JudgedAs (judged_frame len sum held.now) result }
{
    if sum != checksum_of(len, held) {
        // the whole frame
        let lost = (8 + len) as u16;
        return Answer::Damaged {
            what: Damage::WrongSum,
            lost,
        };
    }
    let header = Header {
        device: held[0],
        number: held[1],
        command: held[2],
        len,
    };
    Answer::Message(header)
}

// What the end of a run comes to.
fn judge(end: End, held: &[u8; HELD]) -> Answer
    requires { Fits end }
    ensures { JudgedAs (event_of end held.now) result }
{
    match end {
        End::UsedUp => Answer::Done,
        End::Closed { len, sum } => judge_frame(len, sum, held),
        // 80 80 80 and the length, whatever 80s came before
        End::BadLength => Answer::Damaged {
            what: Damage::WrongLengthByte,
            lost: 4,
        },
    }
}

// A message's data go to the front of the lent buffer.
pub(crate) fn deliver(answer: Answer, held: &[u8], lent: &mut [u8])
    requires { Small answer × There answer held.now × (lent_least ≤ length lent.old) }
    ensures { lent.new ≡ given answer held.now lent.old }
{
    if let Answer::Message(h) = answer {
        let end = PAYLOAD_AT + h.len;
        lent[..h.len].copy_from_slice(&held[PAYLOAD_AT..end]);
    }
}

// The call of `Reader::step` for a host that leaves the held bytes where they are and lends them: none of them is copied. A reader has HELD of
// them, so any other number of them is a spoilt state.
pub fn step_in_place(
    stage: u8,
    count: usize,
    len: usize,
    held: &mut [u8],
    piece: &[u8],
    lent: &mut [u8],
) -> StepInPlace
    ensures { IsStepInPlace stage count len held.old piece.now lent.old result held.new lent.new }
{
    let state = State { stage, count, len };
    let whole = (held.len() == HELD) & state.in_range();
    if !whole {
        let answer = Answer::Refused(Refusal::Spoilt);
        return StepInPlace {
            stage,
            count,
            len,
            answer,
            used: 0,
        };
    }
    if lent.len() < Reader::LENT {
        let answer = Answer::Refused(Refusal::NoRoom);
        return StepInPlace {
            stage,
            count,
            len,
            answer,
            used: 0,
        };
    }
    let Some(held) = held.as_mut_array() else {
        unreachable!()
    };
    let ran = run_in(state, held, piece);
    let answer = judge(ran.end, &*held);
    deliver(answer, &*held, lent);
    StepInPlace {
        stage: ran.state.stage,
        count: ran.state.count,
        len: ran.state.len,
        answer,
        used: ran.used,
    }
}

impl Reader {
    // the bytes before a message's data, start marks included
    pub const HEADER: usize = HEADER;
    // the data bytes that a message has at most
    pub const PAYLOAD: usize = PAYLOAD;
    // the bytes that a message has at most on the wire, with header, data and checksum, but without flags and stuffing
    pub const BODY: usize = BODY;
    // the bytes that a host lends at least, whatever the family
    pub const LENT: usize = 255;

    // The reader before the first byte.
    pub fn fresh() -> Self
        ensures { IsFresh result }
    {
        Reader {
            held: [0; HELD],
            stage: AT_START,
            count: 0,
            len: 0,
        }
    }

    // One call on a piece: up to the first message or damage, or to the piece's end. With a message its data stand at the front of `lent`.
    pub fn step(self, piece: &[u8], lent: &mut [u8]) -> Step
        ensures { IsStep self piece.now lent.old result lent.new }
    {
        let mut held = self.held;
        let s = step_in_place(self.stage, self.count, self.len, &mut held, piece, lent);
        let reader = Reader {
            held,
            stage: s.stage,
            count: s.count,
            len: s.len,
        };
        let answer = s.answer;
        Step {
            reader,
            answer,
            used: s.used,
        }
    }
}
