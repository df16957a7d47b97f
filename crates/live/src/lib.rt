// What both listers do with a script: the program that the first voice binds, the calls on live voices, and why a line is turned back.
#![tactic(auto)]

ghost use Rattle.std.specs.Prelude.{◌≡◌, ◌<◌, IfOk, Option};
ghost use Rattle.live.specs.Places.{place_of};

pub mod refusal;

use crate::refusal::Refusal;
use block::BlockTime;
use block::inputs::Inputs;
use events::SampleVoice;
use lines::desk::PlayLine;
use lister::store::Store;
use program::bind::BoundProgram;
use session::{Session, fresh_session};
use voice::{Called, block, close, is_finished, make, reset};

// The program is bound by the first voice. Each of the sixteen places holds a live voice or none; `step` counts the calls on them.
#[derive(Drop)]
pub struct Live<const FRAMES: usize> {
    store: Store<FRAMES>,
    program: Option<BoundProgram>,
    pub session: Session,
    voices: [Option<SampleVoice>; 16],
    pub step: u64,
}

// The first place whose voice has this id, or the first free one for none.
fn place_of(voices: &[Option<SampleVoice>; 16], id: Option<u64>) -> Option<usize>
    ensures { result ≡ place_of id voices.now }
{
    voices
        .iter()
        .position(|v| v.as_ref().map(|x| x.voice) == id)
}

// The calls are not compiled into their callers: a function's memory is cleared where it is entered, and that of a call is for a step
// alone and not for each line that is read.
impl<const FRAMES: usize> Live<FRAMES> {
    // A call of its own, so that what it copies while it is made takes no room on the stack later.
    #[inline(never)]
    pub fn new() -> Live<FRAMES> {
        Live {
            store: Store::new(),
            program: None,
            session: fresh_session(),
            voices: [None; 16],
            step: 0,
        }
    }

    // As if nothing had been done.
    pub fn forget(&mut self) {
        self.store.forget();
        self.program = None;
        self.session = fresh_session();
        for v in &mut self.voices {
            *v = None;
        }
        self.step = 0;
    }

    // The program, which a line may change before the first voice alone.
    pub fn unbound(&mut self) -> Result<&mut Store<FRAMES>, Refusal> {
        if self.program.is_some() {
            return Err(Refusal::Unreadable);
        }
        Ok(&mut self.store)
    }

    // A new voice. The first one binds the program.
    #[inline(never)]
    pub fn make(&mut self, rate: f32) -> Result<(), Refusal> {
        let program = match self.program {
            None => self.store.bind()?,
            Some(p) => p,
        };
        self.program = Some(program);
        let c = make(self.session, rate, program);
        c.answer?;
        self.session = c.session;
        let k = place_of(&self.voices, None).unwrap_or(0);
        self.voices[k] = Some(c.voice);
        Ok(())
    }

    // The live voice of this id and its place. What is asked of it is a step.
    fn called(&mut self, id: u64) -> Result<(usize, SampleVoice), Refusal>
        ensures { IfOk result (λ p. p.0 < 16) }
    {
        let k = place_of(&self.voices, Some(id)).ok_or(Refusal::Unreadable)?;
        let v = self.voices[k].ok_or(Refusal::Unreadable)?;
        self.step = self.step.wrapping_add(1);
        Ok((k, v))
    }

    // Session and voice as a call leaves them, be it refused or not.
    fn keep(&mut self, k: usize, c: Called) -> Result<SampleVoice, Refusal>
        requires { k < 16 }
    {
        self.session = c.session;
        self.voices[k] = Some(c.voice);
        c.answer?;
        Ok(c.voice)
    }

    // The voice after a block.
    #[inline(never)]
    pub fn block(
        &mut self,
        b: PlayLine,
        inputs: Inputs<'_>,
        left: &mut [f32],
        right: &mut [f32],
    ) -> Result<SampleVoice, Refusal> {
        let (k, v) = self.called(b.voice)?;
        let t = BlockTime {
            frames: b.frames as usize,
            offset: b.offset,
        };
        let store = &self.store;
        let words = store.region_words();
        let samples = store.sample_words();
        let pcm = store.frames.as_slice();
        let c = block(
            self.session,
            v,
            t,
            inputs,
            words,
            samples,
            pcm,
            &store.table,
            left,
            right,
        );
        self.keep(k, c)
    }

    // Whether the voice is finished.
    #[inline(never)]
    pub fn ask(&mut self, id: u64) -> Result<bool, Refusal> {
        let (_, v) = self.called(id)?;
        let store = &self.store;
        let words = store.region_words();
        let samples = store.sample_words();
        let pcm = store.frames.as_slice();
        let finished = is_finished(self.session, v, words, samples, pcm, &store.table)?;
        Ok(finished)
    }

    // The voice after its reset.
    #[inline(never)]
    pub fn reset(&mut self, id: u64) -> Result<SampleVoice, Refusal> {
        let (k, v) = self.called(id)?;
        let c = reset(self.session, v);
        self.keep(k, c)
    }

    #[inline(never)]
    pub fn close(&mut self, id: u64) -> Result<(), Refusal> {
        let (k, v) = self.called(id)?;
        let c = close(self.session, v);
        self.session = c.session;
        c.answer?;
        self.voices[k] = None;
        Ok(())
    }
}
