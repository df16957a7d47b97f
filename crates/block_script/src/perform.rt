// The block lister: whole blocks as bits. It reads a program, voices, inputs and calls from standard input, one to a line, and prints what
// each step leaves: outputs, records, counters and sequences.
use block_parts::build::add;
use block_parts::inputs::Held;
use block_parts::show::{put_answer, put_outputs, put_sequences, put_state, put_voice};
use events::SampleVoice;
use lines::block::{Line, read_block_line};
use lines::desk::PlayLine;
use lister::feed::Feed;
use lister::script;
use lister::script::{Again, Script};
use lister::text::Text;
use live::Live;
use live::refusal::Refusal;
use std::fmt;

// The most frames that all samples have together.
const FRAMES: usize = 65536;

// It is lent what is large: made within it and moved, a megabyte more would be copied.
#[derive(Drop)]
struct Blocks<'a> {
    live: &'a mut Live<FRAMES>,
    inputs: Held,
}

// A refusal, with the region or sample that it names.
#[derive(Drop)]
struct Named(Refusal);

impl From<Refusal> for Named {
    fn from(r: Refusal) -> Named {
        Named(r)
    }
}

impl fmt::Display for Named {
    fn fmt<W: fmt::Write>(&self, f: &mut fmt::Formatter<W>) -> fmt::Result {
        write!(f, "{}", self.0)?;
        match self.0.part() {
            None => Ok(()),
            Some(i) => write!(f, ",{i}"),
        }
    }
}

impl<'a> Blocks<'a> {
    // What a step left of the session and of its voice.
    fn show(&self, text: &mut Text, v: &SampleVoice) {
        put_state(text, self.live.step, &self.live.session);
        put_voice(text, self.live.step, v);
    }

    // Out of line, as `Live`'s calls are.
    #[inline(never)]
    fn play(&mut self, text: &mut Text, b: PlayLine) -> Result<(), Refusal> {
        let mut left = [0.0; 128];
        let mut right = [0.0; 128];
        let v = self
            .live
            .block(b, self.inputs.inputs(), &mut left, &mut right)?;
        let n = (b.frames as usize).min(128);
        put_outputs(text, self.live.step, &left[..n], &right[..n]);
        self.show(text, &v);
        put_sequences(
            text,
            self.live.step,
            &self.live.session,
            v.program.regions as usize,
        );
        Ok(())
    }

    #[inline(never)]
    fn reset(&mut self, text: &mut Text, id: u64) -> Result<(), Refusal> {
        let v = self.live.reset(id)?;
        self.show(text, &v);
        Ok(())
    }

    // Does what a line asks for, and prints what that leaves.
    fn step(&mut self, text: &mut Text, d: Line, line: &[u8]) -> Result<(), Refusal> {
        match d {
            Line::Voice { rate } => self.live.make(rate)?,
            Line::Block(b) => self.play(text, b)?,
            Line::Ask(id) => {
                let finished = self.live.ask(id)?;
                put_answer(text, self.live.step, finished);
            }
            Line::Reset(id) => self.reset(text, id)?,
            Line::Close(id) => {
                self.live.close(id)?;
                put_state(text, self.live.step, &self.live.session);
            }
            Line::Input { input, set } => self.inputs.set(input, set),
            _ => add(self.live.unbound()?, d, line).ok_or(Refusal::Unreadable)?,
        }
        Ok(())
    }
}

impl<'a> Script for Blocks<'a> {
    type Refusal = Named;

    fn take(&mut self, text: &mut Text, number: u64, line: &[u8]) -> Result<(), Named> {
        let d = read_block_line(line).ok_or(Refusal::Unreadable)?;
        match self.step(text, d, line) {
            // A call that is refused leaves all as it was, and the script goes on.
            Err(r @ Refusal::Call(_)) => text.line(format_args!("E,{number},{r}")),
            done => done?,
        }
        Ok(())
    }
}

impl<'a> Again for Blocks<'a> {
    fn forget(&mut self) {
        self.live.forget();
        self.inputs.forget();
    }
}

// One script from a fresh session.
pub fn perform(feed: &mut Feed) {
    let mut text = Text::new();
    let mut live = Live::new();
    let mut blocks = Blocks {
        live: &mut live,
        inputs: Held::new(),
    };
    script::perform(feed, &mut text, &mut blocks);
}

// Many scripts, each from a fresh session.
pub fn replay() {
    let mut live = Live::new();
    let mut blocks = Blocks {
        live: &mut live,
        inputs: Held::new(),
    };
    script::replay(&mut blocks);
}
