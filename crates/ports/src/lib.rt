// The readers of all ports side by side, one a port. A call goes to the reader of its port and leaves the others as they are.
//
// `Ports::step` is for hosts that hold all readers by value and are handed a port and a piece, as `test_published` and `test_probe_listing` do here.
// Such a call copies all four readers, some 770 bytes. So `listing`, which calls often, chooses the port itself and lends the reader where it stands:
// it goes by `step_in_place`, which copies no held byte.
//
// `Ports::step` goes by each reader's `step`, which takes the reader by value as `Ports::step` itself does.
#![tactic(auto)]

ghost use Rattle.std.specs.Prelude.{◌≡◌};
ghost use Rattle.ports.specs.Ports.{comlynx_answer, eversolar_answer, fronius_answer, drives_answer, IsFresh, IsStep};

use answers::{Damage, Refusal};

// Which port has which family.
pub const COMLYNX: u8 = 1;

pub const EVERSOLAR: u8 = 2;

pub const FRONIUS: u8 = 3;

pub const DRIVES: u8 = 4;

// What the bytes read so far on each port have led to.
#[derive(Drop)]
pub struct Ports {
    // port 1
    pub comlynx: comlynx::Reader,
    // port 2
    pub eversolar: eversolar::Reader,
    // port 3
    pub fronius: fronius::Reader,
    // port 4
    pub drives: drives::Reader,
}

// A message is told by its family's header; its data stand at the front of the lent buffer.
#[derive(Clone, Copy)]
pub enum Answer {
    // the piece is used up
    Done,
    ComLynx(comlynx::Header),
    Eversolar(eversolar::Header),
    Fronius(fronius::Header),
    Drives(drives::Header),
    // with how many bytes were lost
    Damaged { what: Damage, lost: u16 },
    Refused(Refusal),
}

// What a call hands back: the readers to go on with, the answer, and how many bytes of the piece were used.
#[derive(Drop)]
pub struct Step {
    pub ports: Ports,
    pub answer: Answer,
    pub used: usize,
}

// A family's answer, as an answer of the ports: one function for each.
fn comlynx_answer(answer: comlynx::Answer) -> Answer
    ensures { result ≡ comlynx_answer answer }
{
    match answer {
        comlynx::Answer::Done => Answer::Done,
        comlynx::Answer::Message(h) => Answer::ComLynx(h),
        comlynx::Answer::Damaged { what, lost } => Answer::Damaged { what, lost },
        comlynx::Answer::Refused(why) => Answer::Refused(why),
    }
}

fn eversolar_answer(answer: eversolar::Answer) -> Answer
    ensures { result ≡ eversolar_answer answer }
{
    match answer {
        eversolar::Answer::Done => Answer::Done,
        eversolar::Answer::Message(h) => Answer::Eversolar(h),
        eversolar::Answer::Damaged { what, lost } => Answer::Damaged { what, lost },
        eversolar::Answer::Refused(why) => Answer::Refused(why),
    }
}

fn fronius_answer(answer: fronius::Answer) -> Answer
    ensures { result ≡ fronius_answer answer }
{
    match answer {
        fronius::Answer::Done => Answer::Done,
        fronius::Answer::Message(h) => Answer::Fronius(h),
        fronius::Answer::Damaged { what, lost } => Answer::Damaged { what, lost },
        fronius::Answer::Refused(why) => Answer::Refused(why),
    }
}

fn drives_answer(answer: drives::Answer) -> Answer
    ensures { result ≡ drives_answer answer }
{
    match answer {
        drives::Answer::Done => Answer::Done,
        drives::Answer::Message(h) => Answer::Drives(h),
        drives::Answer::Damaged { what, lost } => Answer::Damaged { what, lost },
        drives::Answer::Refused(why) => Answer::Refused(why),
    }
}

impl Ports {
    // Every reader before its first byte.
    pub fn fresh() -> Self
        ensures { IsFresh result }
    {
        let first = comlynx::Reader::fresh();
        let second = eversolar::Reader::fresh();
        let third = fronius::Reader::fresh();
        let fourth = drives::Reader::fresh();
        Ports {
            comlynx: first,
            eversolar: second,
            fronius: third,
            drives: fourth,
        }
    }

    // One call of that port's reader. A port that has none is refused, and nothing is used or changed. All in one function: with one for
    // each family every call copies all four readers once more.
    pub fn step(mut self, port: u8, piece: &[u8], lent: &mut [u8]) -> Step
        ensures { IsStep self port piece.now lent.old result lent.new }
    {
        if port == COMLYNX {
            let s = self.comlynx.step(piece, lent);
            let next = s.reader;
            self.comlynx = next;
            let told = s.answer;
            let answer = comlynx_answer(told);
            return Step {
                ports: self,
                answer,
                used: s.used,
            };
        }
        if port == EVERSOLAR {
            let s = self.eversolar.step(piece, lent);
            let next = s.reader;
            self.eversolar = next;
            let told = s.answer;
            let answer = eversolar_answer(told);
            return Step {
                ports: self,
                answer,
                used: s.used,
            };
        }
        if port == FRONIUS {
            let s = self.fronius.step(piece, lent);
            let next = s.reader;
            self.fronius = next;
            let told = s.answer;
            let answer = fronius_answer(told);
            return Step {
                ports: self,
                answer,
                used: s.used,
            };
        }
        if port == DRIVES {
            let s = self.drives.step(piece, lent);
            let next = s.reader;
            self.drives = next;
            let told = s.answer;
            let answer = drives_answer(told);
            return Step {
                ports: self,
                answer,
                used: s.used,
            };
        }
        let answer = Answer::Refused(Refusal::WrongPortOrCount);
        Step {
            ports: self,
            answer,
            used: 0,
        }
    }
}
