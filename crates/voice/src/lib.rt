// The public calls of a voice: making, a block, asking whether it is finished, reset and close. None has a precondition: each gives its
// result or the refusal that its inputs call for, and a refused call changes nothing. A contract is one equation for all that the call
// leaves, and beside it the number of its answer: 01's first cause that holds, 0 where none does.
#![tactic(auto)]

ghost use Rattle.std.specs.Prelude.{◌≡◌};
ghost use Rattle.block.specs.Inputs.{Lent, signals_of};
ghost use Rattle.voice.specs.Calls.{refusal_number, number_of, called, fresh_voice, make_answer, made, blocked, may_release, is_finished, Program, asked, silenced, end_answer, was_reset, was_closed};
ghost use Rattle.voice.specs.Numbers.{make_number, block_number, ask_number, end_number};

use block::calm::{play_calm, settle, tune_of};
use block::inputs::Inputs;
use block::{BlockTime, play_block};
use causes::calm::{is_calm, look};
use causes::check::{parts_fit, rate_fits, state_fits, well_formed};
use causes::quiet::{is_quiet, quiet_outputs};
use events::SampleVoice;
use players::{Players, no_players};
use program::bind::BoundProgram;
use program::lookup::has_release_for;
use session::{Session, close_voice, end_voice, new_voice};

// Why a call is turned back.
#[derive(Clone, Copy, Debug, PartialEq, Eq)]
pub enum Refusal {
    BadRate,
    TooManyVoices,
    BadBlock,
    BadState,
    TooLate,
}

impl Refusal {
    // 01's number.
    pub fn number(self) -> u64
        ensures { result ≡ refusal_number self }
    {
        match self {
            Refusal::BadRate => 5,
            Refusal::TooManyVoices => 6,
            Refusal::BadBlock => 7,
            Refusal::BadState => 8,
            Refusal::TooLate => 9,
        }
    }
}

// The large parts in front, the voice first: so ordered they are copied least, and to aligned places (docs/SPEED.md).
#[derive(Drop)]
pub struct Called {
    pub voice: SampleVoice,
    pub session: Session,
    pub answer: Result<(), Refusal>,
}

#[derive(Drop)]
pub struct Closed {
    pub session: Session,
    pub answer: Result<(), Refusal>,
}

fn with_answer(answer: Result<(), Refusal>, session: Session, voice: SampleVoice) -> Called
    ensures { result ≡ called answer session voice }
{
    Called {
        voice,
        session,
        answer,
    }
}

// ---- making

// A voice that has not played. A `Default` would be these lines again, with a region, a sample and a rate that no voice has.
fn fresh_voice(id: u64, rate: f32, program: BoundProgram) -> SampleVoice
    ensures { result ≡ fresh_voice id rate program }
{
    SampleVoice {
        voice: id,
        sample_rate: rate,
        program,
        gate_prev: false,
        gate_held: false,
        note: None,
        started: false,
        players: no_players(),
        next_slot: 0,
        dropped: 0,
    }
}

// Whether a voice of this rate can be made.
#[tactic(auto, unfolding(crate::specs::Calls::make_answer))]
fn may_make(s: &Session, rate: f32) -> Result<(), Refusal>
    ensures { result ≡ make_answer rate s.now }
{
    if !rate_fits(rate) {
        return Err(Refusal::BadRate);
    }
    if 16 <= s.voices.count {
        return Err(Refusal::TooManyVoices);
    }
    if 0x8000_0000_0000_0000 < s.voices.next_voice {
        return Err(Refusal::TooLate);
    }
    Ok(())
}

// A new voice of the program. Turned back, the voice handed out has the id 0, which no session grown from a fresh one gives: ids
// count from 1.
pub fn make(s: Session, rate: f32, program: BoundProgram) -> Called
    ensures { (result ≡ made rate program s) × (number_of result.answer ≡ make_number rate s) }
{
    let answer = may_make(&s, rate);
    if answer.is_err() {
        return with_answer(answer, s, fresh_voice(0, rate, program));
    }
    let voice = fresh_voice(s.voices.next_voice, rate, program);
    with_answer(answer, new_voice(s).session, voice)
}

// ---- a block

// One block: its first frames of both outputs. Frames lent beyond it stay as they were.
pub fn block(
    s: Session,
    v: SampleVoice,
    t: BlockTime,
    inputs: Inputs<'_>,
    words: &[u32],
    samples: &[u32],
    pcm: &[f32],
    table: &[f32],
    left: &mut [f32],
    right: &mut [f32],
) -> Called
    ensures { (let l : Lent = record {
      time = t;
      words = words.now;
      samples = samples.now;
      pcm = pcm.now;
      table = table.now;
      inputs = signals_of inputs.entry;
      left = left.old;
      right = right.old;
    } in
        ((record { called = result; left = left.new; right = right.new }) ≡ blocked l s v) × (number_of result.answer ≡ block_number l s v)) }
{
    // three ways that leave the same: a quiet block copies 360 KB, one without events 496, and one with events more (docs/SPEED.md)
    let n = t.frames;
    if !parts_fit(n, inputs, left.len(), right.len()) {
        return with_answer(Err(Refusal::BadBlock), s, v);
    }
    if is_quiet(
        &s,
        &v,
        t,
        inputs.gate,
        words,
        samples,
        pcm.len(),
        table.len(),
    ) {
        quiet_outputs(inputs.amp, &mut left[0..n], &mut right[0..n]);
        return with_answer(Ok(()), s, v);
    }
    let Some(waits) = look(&s, &v, t, words, samples, pcm.len(), table.len()) else {
        // the plain tests find out why it does not fit
        if state_fits(&s, &v, words, samples, pcm.len(), table.len()) {
            return with_answer(Err(Refusal::TooLate), s, v);
        }
        return with_answer(Err(Refusal::BadState), s, v);
    };
    if is_calm(waits, v.gate_prev, inputs.gate, n) {
        // in place, since a call of its own would copy session and voice once more
        let note = v.note;
        let x = tune_of(note, inputs);
        let ps = v.players;
        let m = play_calm(
            ps,
            x,
            samples,
            pcm,
            table,
            inputs.amp,
            &mut left[0..n],
            &mut right[0..n],
        );
        let w = SampleVoice {
            players: m.players,
            ..v
        };
        if m.ended.count == 0 {
            if !m.over {
                return with_answer(Ok(()), s, w);
            }
        }
        let b = settle(s, w, m.ended);
        return with_answer(Ok(()), b.session, b.voice);
    }
    let b = play_block(
        s,
        v,
        t,
        inputs,
        words,
        samples,
        pcm,
        table,
        &mut left[0..n],
        &mut right[0..n],
    );
    with_answer(Ok(()), b.session, b.voice)
}

// ---- asking

// A held note may still fire a release region.
fn may_release(v: SampleVoice, words: &[u32]) -> bool
    ensures { result ≡ may_release words.now v v.note }
{
    v.note.is_some_and(|n| {
        v.gate_held && has_release_for(words, v.program.regions, n.note, n.vel)
    })
}

// It has started, no player sounds, and no release region waits for its gate: the Rust's `is_finished`.
fn finished(v: SampleVoice, words: &[u32]) -> bool
    ensures { result ≡ is_finished words.now v }
{
    if !v.started {
        return false;
    }
    if v.players.count != 0 {
        return false;
    }
    !may_release(v, words)
}

// Whether the voice is finished.
pub fn is_finished(
    s: Session,
    v: SampleVoice,
    words: &[u32],
    samples: &[u32],
    pcm: &[f32],
    table: &[f32],
) -> Result<bool, Refusal>
    ensures { (let k : Program = record { words = words.entry.now; samples = samples.now; pcm = pcm.now; table = table.now } in
        (result ≡ asked k s v) × (number_of result ≡ ask_number k s v)) }
{
    if !state_fits(&s, &v, words, samples, pcm.len(), table.len()) {
        return Err(Refusal::BadState);
    }
    Ok(finished(v, words))
}

// ---- reset and close

// The gate down, no note, no players.
fn silence(v: SampleVoice) -> SampleVoice
    ensures { result ≡ silenced v }
{
    SampleVoice {
        gate_prev: false,
        gate_held: false,
        note: None,
        started: false,
        players: Players {
            count: 0,
            ..v.players
        },
        ..v
    }
}

// Whether session and voice can be told that its notes end.
#[tactic(auto, unfolding(crate::specs::Calls::end_answer))]
fn may_end(s: &Session, v: &SampleVoice) -> Result<(), Refusal>
    ensures { result ≡ end_answer s.now v.now }
{
    if well_formed(s, v) {
        Ok(())
    } else {
        Err(Refusal::BadState)
    }
}

// All of the voice's notes end at once; it stays live.
pub fn reset(s: Session, v: SampleVoice) -> Called
    ensures { (result ≡ was_reset s v) × (number_of result.answer ≡ end_number s v) }
{
    let answer = may_end(&s, &v);
    if answer.is_err() {
        return with_answer(answer, s, v);
    }
    let session = end_voice(s, v.voice, v.gate_held);
    with_answer(answer, session, silence(v))
}

// The voice ends, and its place is free for another.
pub fn close(s: Session, v: SampleVoice) -> Closed
    ensures { (result ≡ was_closed s v) × (number_of result.answer ≡ end_number s v) }
{
    let answer = may_end(&s, &v);
    let session = if answer.is_ok() {
        close_voice(s, v.voice, v.gate_held)
    } else {
        s
    };
    Closed { session, answer }
}
