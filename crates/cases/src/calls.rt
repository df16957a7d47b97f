// The public calls on a state: what each answers, and whether a call that is turned back leaves everything as it was.
ghost use Rattle.std.specs.Prelude.{◌<◌, ◌^◌};

use super::lend::Lent;
use super::same::SameBits;
use block::BlockTime;
use block::inputs::Inputs;
use events::Both;
use program::bind::BoundProgram;
use session::Session;
use std::fmt;
use voice::{Refusal, block, close, is_finished, make, reset};

// What a call left: done, or turned back with everything as it was or not. The worst stands last.
#[derive(Clone, Copy, PartialEq, Eq, PartialOrd, Ord)]
pub enum Left {
    Done,
    Kept,
    Broken,
}

// The end of a line.
impl fmt::Display for Left {
    fn fmt<W: fmt::Write>(&self, f: &mut fmt::Formatter<W>) -> fmt::Result {
        f.write_str(match self {
            Left::Done => "",
            Left::Kept => ", unchanged",
            Left::Broken => ", CHANGED",
        })
    }
}

// What a call answered, 0 or 01's number, and what it left.
#[derive(Clone, Copy)]
pub struct Outcome {
    pub number: u64,
    pub left: Left,
}

// Of a call that answered so, where `same` says that nothing has changed.
fn outcome_of(answer: Result<(), Refusal>, same: bool) -> Outcome {
    match answer {
        Ok(()) => Outcome {
            number: 0,
            left: Left::Done,
        },
        Err(refusal) => Outcome {
            number: refusal.number(),
            left: if same { Left::Kept } else { Left::Broken },
        },
    }
}

pub fn making(s: &Session, rate: f32, program: BoundProgram) -> Outcome {
    let m = make(*s, rate, program);
    outcome_of(m.answer, m.session == *s)
}

// What outputs hold before a block.
const BEFORE: f32 = 0.25;

fn is_untouched(output: &[f32]) -> bool {
    output.iter().all(|x| *x == BEFORE)
}

// A block into outputs of L and R frames. The bounds say that such arrays fit in memory.
pub fn playing<const L: usize, const R: usize>(
    b: &Both,
    t: BlockTime,
    inputs: Inputs<'_>,
    lent: Lent<'_>,
) -> Outcome
    requires { L < 2 ^ 61 × R < 2 ^ 61 }
{
    let mut left = [BEFORE; L];
    let mut right = [BEFORE; R];
    let m = block(
        b.session,
        b.voice,
        t,
        inputs,
        lent.words,
        lent.samples,
        lent.pcm,
        lent.table,
        &mut left,
        &mut right,
    );
    let same = m.session == b.session && m.voice.same_bits(&b.voice);
    outcome_of(
        m.answer,
        same && is_untouched(&left) && is_untouched(&right),
    )
}

// The number of the answer alone: asking hands nothing back.
pub fn asking(b: &Both, lent: Lent<'_>) -> u64 {
    let answer = is_finished(
        b.session,
        b.voice,
        lent.words,
        lent.samples,
        lent.pcm,
        lent.table,
    );
    answer.map_or_else(Refusal::number, |_| 0)
}

pub fn resetting(b: &Both) -> Outcome {
    let r = reset(b.session, b.voice);
    outcome_of(
        r.answer,
        r.session == b.session && r.voice.same_bits(&b.voice),
    )
}

pub fn closing(b: &Both) -> Outcome {
    let c = close(b.session, b.voice);
    outcome_of(c.answer, c.session == b.session)
}
