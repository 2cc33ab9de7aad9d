// The streaming reader: bytes go in by pieces, messages and damages come out, whatever the pieces.
//
// A frame (document 000, sections 5.1 and 5.2); what stands between the flags is stuffed (5.1.1):
//
//     7E   | FF 03            | source | destination | size | type | data     | checksum | 7E
//     flag | address, control | 2      | 2           | 1    | 1    | 0 to 255 | 2        | flag
//
// What a reader holds is the body: all between the flags, unstuffed. The checksum covers FF through the last data byte.
ghost use Rattle.std.specs.Prelude.{min, ◌+◌, ◌-◌, ◌≤◌, ◌≡◌, true, length};
ghost use Rattle.std.proofs.Math.Option.{some};
ghost use Rattle.stream.specs.Call.{lent_least};
ghost use Rattle.comlynx.specs.Rules.{sized, begins};
ghost use Rattle.answers.specs.declared.Damage.{Damage};
ghost use Rattle.comlynx.specs.declared.reader.Answer.TheVariants.{Damaged};
ghost use Rattle.comlynx.specs.Machine.{more, keep_of, advance_of, in_range, closed};
ghost use Rattle.comlynx.specs.Wire.{body_max};
ghost use Rattle.comlynx.specs.Reader.{IsFresh, IsStep, IsStepInPlace};
ghost use Rattle.comlynx.specs.Inside.{Filled, Runs, event_of, event_at, due, Finds, JudgedAs, Small, There, given, refuses};

use crate::checksum;
use crate::search::{either_from, past_runs};
use answers::{Damage, Refusal};

// The limits, named here because the reader's own constants cannot size its own array. FF 03, source, destination, size and type come before the data.
const HEADER: usize = 8;

const PAYLOAD: usize = 255;

// The checksum's two bytes.
const SUM: usize = 2;

const BODY: usize = HEADER + PAYLOAD + SUM;

// What the bytes read so far have led to. Before the first flag `came` and `count` are 0. What `held` has from `count` on is left over and means nothing.
#[derive(Drop)]
pub struct Reader {
    // the unstuffed bytes of the stretch, as far as they have come
    pub held: [u8; BODY],
    // BEFORE, INSIDE, ESCAPED or BROKEN
    pub stage: u8,
    // how many bytes have come since the flag, as they were sent: LOST_MAX stands for that or more
    pub came: u16,
    // how many bytes are held, in a stretch with a broken pair those before it; TOO_MANY where there were more than it holds
    pub count: usize,
}

// A message, but for its data, which stand at the front of the lent buffer.
#[derive(Clone, Copy)]
pub struct Header {
    pub source: u16,
    pub destination: u16,
    // the type byte
    pub kind: u8,
    // how many data bytes there are
    pub len: usize,
}

#[derive(Clone, Copy)]
pub enum Answer {
    // the piece is used up
    Done,
    Message(Header),
    // with how many bytes were lost
    Damaged { what: Damage, lost: u16 },
    Refused(Refusal),
}

// What a call hands back: the reader to go on with, the answer, and how many bytes of the piece were used.
#[derive(Drop)]
pub struct Step {
    pub reader: Reader,
    pub answer: Answer,
    pub used: usize,
}

// What a call over lent held bytes hands back: the rest of the reader to go on with, the answer, and how many bytes of the piece were used.
#[derive(Clone, Copy)]
pub struct StepInPlace {
    pub stage: u8,
    pub came: u16,
    pub count: usize,
    pub answer: Answer,
    pub used: usize,
}

// The stages: before the first flag; in a stretch; after its escape; in a stretch with a broken pair. They are numbers and no enum, since a host may
// hand back a stage that is none of them, and is refused by `IsStepInPlace`.
const BEFORE: u8 = 0;

const INSIDE: u8 = 1;

const ESCAPED: u8 = 2;

const BROKEN: u8 = 3;

// The count of a stretch that has more bytes than a body may have.
pub(crate) const TOO_MANY: usize = Reader::BODY + 1;

// The number of lost bytes that stands for itself or more.
const LOST_MAX: u16 = 65535;

// The two bytes that mean something, and what follows the escape where they are meant themselves.
pub(crate) const FLAG: u8 = 0x7e;

pub(crate) const ESCAPE: u8 = 0x7d;

pub(crate) const FLAG_PAIR: u8 = 0x5e;

pub(crate) const ESCAPE_PAIR: u8 = 0x5d;

// How a body begins.
pub(crate) const FIRST: u8 = 0xff;

pub(crate) const SECOND: u8 = 0x03;

// So many bytes more have come.
pub(crate) fn plus(came: u16, n: usize) -> u16
    ensures { result ≡ more came n }
{
    usize::from(came)
        .saturating_add(n)
        .min(usize::from(LOST_MAX)) as u16
}

// Where a reader stands: all of it but the bytes held.
#[derive(Clone, Copy)]
struct State {
    stage: u8,
    came: u16,
    count: usize,
}

// What one byte asks of the reader.
#[derive(Clone, Copy)]
enum Move {
    // nothing
    Skip,
    // a stretch begins, or begins again where nothing has come
    Open,
    // the escape
    Mark,
    // a broken pair, or a byte after one
    Spoil,
    // one more byte of the body
    Keep(u8),
    // one more than there is room for
    Over,
    // the flag that ends a stretch
    Close,
    // the flag that ends a stretch with a broken pair
    Fail,
}

// One more byte of the body, as far as there is room.
fn keep(count: usize, v: u8) -> Move
    ensures { result ≡ keep_of count v }
{
    if count < Reader::BODY {
        Move::Keep(v)
    } else {
        Move::Over
    }
}

impl State {
    // at the beginning of a stretch, right behind a flag
    const OPENED: State = State {
        stage: INSIDE,
        came: 0,
        count: 0,
    };

    // Whether bytes come and count are in the stage's range. In a stretch `came` may be any number that its type has.
    fn in_range(self) -> bool
        ensures { result ≡ in_range self.stage self.came self.count }
    {
        if self.stage == BEFORE {
            return (self.came == 0) & (self.count == 0);
        }
        if BROKEN < self.stage {
            return false;
        }
        (self.came <= LOST_MAX) & (self.count <= TOO_MANY)
    }

    // Says what a byte asks. No other function decides what a byte means.
    fn advance(self, b: u8) -> Move
        ensures { result ≡ advance_of self.stage self.count b }
    {
        if self.stage == BEFORE {
            if b == FLAG {
                return Move::Open;
            }
            return Move::Skip;
        }
        if self.stage == INSIDE {
            if b == FLAG {
                if self.count == 0 {
                    return Move::Open;
                }
                return Move::Close;
            }
            if b == ESCAPE {
                return Move::Mark;
            }
            return keep(self.count, b);
        }
        if self.stage == ESCAPED {
            if b == FLAG {
                return Move::Fail;
            }
            if b == FLAG_PAIR {
                return keep(self.count, FLAG);
            }
            if b == ESCAPE_PAIR {
                return keep(self.count, ESCAPE);
            }
            return Move::Spoil;
        }
        if b == FLAG {
            return Move::Fail;
        }
        Move::Spoil
    }
}

// How a stretch came to the flag that closes it.
#[derive(Clone, Copy)]
pub(crate) enum Closed {
    // with so many unstuffed bytes, for which so many came
    Whole { count: usize, came: u16 },
    // with a broken pair, and so many bytes came for it
    Broken { came: u16 },
}

// What a run hands back beside the held bytes.
#[derive(Clone, Copy)]
struct Ran {
    state: State,
    used: usize,
    // none where the piece is used up
    end: Option<Closed>,
}

// Takes in plain bytes byte by byte from `from` on, up to `stop` at most; gives the index after the last.
fn fill_bytes(count: usize, held: &mut [u8; BODY], piece: &[u8], from: usize, stop: usize) -> usize
    requires { (from ≤ stop) × (stop ≤ length piece.now) × (count + (stop - from) ≤ body_max) }
    ensures { (result ≤ stop) × Filled count held.old piece.now from result held.new }
{
    for i in from..stop {
        let b = piece[i];
        if (b == FLAG) | (b == ESCAPE) {
            return i;
        }
        held[count + (i - from)] = b;
    }
    stop
}

// Takes in plain bytes from `from` on while there is room; gives the index after the last. Where no run is plain, as between escapes that stand close
// together, a search ahead and a copy would cost more than the few bytes do one by one.
fn fill(count: usize, held: &mut [u8; BODY], piece: &[u8], from: usize) -> usize
    requires { (count ≤ body_max) × (from ≤ length piece.now) }
    ensures { Filled count held.old piece.now from result held.new }
{
    // a piece of one byte has no more: the search would be asked for nothing
    if from == piece.len() {
        return from;
    }
    let stop = from + (piece.len() - from).min(Reader::BODY - count);
    let runs = past_runs::<FLAG, ESCAPE>(&piece[..stop], from);
    if runs == from {
        return fill_bytes(count, held, piece, from, stop);
    }
    let end = either_from::<FLAG, ESCAPE>(&piece[..stop], runs);
    held[count..count + (end - from)].copy_from_slice(&piece[from..end]);
    end
}

// The piece, byte by byte, up to the flag that settles something or the end of the piece. It knows no checksum.
// It is long because each move has its arm here: a call from an arm would have to lend the whole state. It counts its index by hand, since a turn that
// keeps a byte also takes in those that `fill` finds behind it.
fn run_in(state: State, held: &mut [u8; BODY], piece: &[u8]) -> Ran
    requires { in_range state.stage state.came state.count ≡ true }
    ensures { Runs state held.old piece.now result held.new }
{
    let mut state = state;
    let mut i: usize = 0;
    while i < piece.len() {
        let b = piece[i];
        let m = state.advance(b);
        i += 1;
        match m {
            Move::Skip => {}
            Move::Open => {
                state = State::OPENED;
            }
            Move::Mark => {
                state.stage = ESCAPED;
                state.came = plus(state.came, 1);
            }
            Move::Spoil => {
                state.stage = BROKEN;
                state.came = plus(state.came, 1);
            }
            Move::Keep(v) => {
                held[state.count] = v;
                let next = state.count + 1;
                let j = fill(next, held, piece, i);
                state = State {
                    stage: INSIDE,
                    came: plus(state.came, 1 + (j - i)),
                    count: next + (j - i),
                };
                i = j;
            }
            Move::Over => {
                state = State {
                    stage: INSIDE,
                    came: plus(state.came, 1),
                    count: TOO_MANY,
                };
            }
            Move::Close => {
                let end = Closed::Whole {
                    count: state.count,
                    came: state.came,
                };
                return Ran {
                    state: State::OPENED,
                    used: i,
                    end: Some(end),
                };
            }
            Move::Fail => {
                let end = Closed::Broken { came: state.came };
                return Ran {
                    state: State::OPENED,
                    used: i,
                    end: Some(end),
                };
            }
        }
    }
    Ran {
        state,
        used: i,
        end: None,
    }
}

// A body's length: 10 to 265.
fn sized(count: usize) -> bool
    ensures { result ≡ sized count }
{
    (Reader::HEADER + SUM <= count) & (count <= Reader::BODY)
}

// Whether what is held begins FF 03. Two single bytes, here and in `ends`: arrays made of them to be compared would be no plainer.
fn begins(held: &[u8]) -> bool
    requires { 2 ≤ length held.now }
    ensures { result ≡ begins held.now }
{
    (held[0] == FIRST) & (held[1] == SECOND)
}

// Whether the last two of `count` held bytes are the two that are due.
fn ends(count: usize, low: u8, high: u8, held: &[u8]) -> bool
    requires { (2 ≤ count) × (count ≤ length held.now) }
    ensures { result ≡ due count low high held.now }
{
    (held[count - SUM] == low) & (held[count - 1] == high)
}

// A damage of a stretch for which `lost` bytes came.
fn damaged(what: Damage, lost: u16) -> Answer
    ensures { result ≡ Damaged what lost }
{
    Answer::Damaged { what, lost }
}

// The checks of a closed stretch in order, by its `count` unstuffed bytes and the two checksum bytes that are due: its header, or what is wrong.
// Of the unstuffed bytes there need be no more than a body may have.
fn judge_frame(count: usize, low: u8, high: u8, held: &[u8]) -> Result<Header, Damage>
    requires { min count body_max ≤ length held.now }
    ensures { Finds count low high held.now result }
{
    if !sized(count) {
        return Err(Damage::WrongBodyLength);
    }
    if !begins(held) {
        return Err(Damage::WrongStart);
    }
    let len = count - Reader::HEADER - SUM;
    if usize::from(held[6]) != len {
        return Err(Damage::WrongSize);
    }
    if !ends(count, low, high, held) {
        return Err(Damage::WrongSum);
    }
    let source = u16::from_be_bytes([held[2], held[3]]);
    let destination = u16::from_be_bytes([held[4], held[5]]);
    Ok(Header {
        source,
        destination,
        kind: held[7],
        len,
    })
}

// What a closed stretch comes to; all of it is lost with a damage. The checksum is asked for here, once.
pub(crate) fn judge_closed(count: usize, came: u16, held: &[u8]) -> Answer
    requires { min count body_max ≤ length held.now }
    ensures { JudgedAs (some (closed came count held.now)) result }
{
    // all but its own two: a stretch that is too short for them is a damage, whatever its sum
    let sum = checksum::of_first(held, count.saturating_sub(SUM));
    let due = checksum::sent_of(sum);
    match judge_frame(count, due.low, due.high, held) {
        Ok(header) => Answer::Message(header),
        Err(what) => damaged(what, came),
    }
}

// What a stretch comes to at the flag that closes it.
pub(crate) fn judge(end: Closed, held: &[u8; BODY]) -> Answer
    ensures { JudgedAs (some (event_of end held.now)) result }
{
    match end {
        Closed::Whole { count, came } => judge_closed(count, came, held),
        Closed::Broken { came } => damaged(Damage::BrokenPair, came),
    }
}

// What the end of a run comes to.
fn answer_to(end: Option<Closed>, held: &[u8; BODY]) -> Answer
    ensures { JudgedAs (event_at end held.now) result }
{
    match end {
        None => Answer::Done,
        Some(end) => judge(end, held),
    }
}

// A message's data go to the front of the lent buffer.
pub(crate) fn deliver(answer: Answer, held: &[u8], lent: &mut [u8])
    requires { Small answer × There answer held.now × (lent_least ≤ length lent.old) }
    ensures { lent.new ≡ given answer held.now lent.old }
{
    if let Answer::Message(h) = answer {
        let end = Reader::HEADER + h.len;
        lent[..h.len].copy_from_slice(&held[Reader::HEADER..end]);
    }
}

// Refused, with the state as it was and nothing used.
fn refused(state: State, why: Refusal) -> StepInPlace
    ensures { result ≡ refuses state why }
{
    StepInPlace {
        stage: state.stage,
        came: state.came,
        count: state.count,
        answer: Answer::Refused(why),
        used: 0,
    }
}

// The call of `Reader::step` for a host that leaves the held bytes where they are and lends them: none of them is copied. A reader has BODY of
// them, so any other number of them is a spoilt state.
pub fn step_in_place(
    stage: u8,
    came: u16,
    count: usize,
    held: &mut [u8],
    piece: &[u8],
    lent: &mut [u8],
) -> StepInPlace
    ensures { IsStepInPlace stage came count held.old piece.now lent.old result held.new lent.new }
{
    let state = State { stage, came, count };
    let spoilt = refused(state, Refusal::Spoilt);
    let Some(held) = held.as_mut_array() else {
        return spoilt;
    };
    if !state.in_range() {
        return spoilt;
    }
    if lent.len() < Reader::LENT {
        return refused(state, Refusal::NoRoom);
    }
    let ran = run_in(state, held, piece);
    let answer = answer_to(ran.end, &*held);
    deliver(answer, &*held, lent);
    StepInPlace {
        stage: ran.state.stage,
        came: ran.state.came,
        count: ran.state.count,
        answer,
        used: ran.used,
    }
}

impl Reader {
    // the bytes before a message's data, start marks included
    pub const HEADER: usize = HEADER;
    // the data bytes that a message has at most
    pub const PAYLOAD: usize = PAYLOAD;
    // the bytes that a message has at most on the wire, with header, data and checksum, but without flags and stuffing
    pub const BODY: usize = BODY;
    // the bytes that a host lends at least, whatever the family
    pub const LENT: usize = 255;

    // The reader before the first byte.
    pub fn fresh() -> Self
        ensures { IsFresh result }
    {
        Reader {
            held: [0; BODY],
            stage: BEFORE,
            came: 0,
            count: 0,
        }
    }

    // One call on a piece: up to the first message or damage, or to the piece's end. With a message its data stand at the front of `lent`.
    pub fn step(self, piece: &[u8], lent: &mut [u8]) -> Step
        ensures { IsStep self piece.now lent.old result lent.new }
    {
        let mut held = self.held;
        let s = step_in_place(self.stage, self.came, self.count, &mut held, piece, lent);
        let reader = Reader {
            held,
            stage: s.stage,
            came: s.came,
            count: s.count,
        };
        let answer = s.answer;
        Step {
            reader,
            answer,
            used: s.used,
        }
    }
}
