// 01's desk lister: samples, regions and calls on voices, one to a line; the session's list is printed after each step, or the refusal
// that ends the script.
use super::setup::{add_sample, region_words};
use block::inputs::Inputs;
use lines::desk::{BlockLine, DeskLine, read_desk};
use lister::feed::Feed;
use lister::script;
use lister::script::{Again, Script};
use lister::show::{put_records, put_totals};
use lister::text::Text;
use live::Live;
use live::refusal::Refusal;

// The longest sample that a line gives.
const FRAMES: usize = 8000;

// It is lent what is large: made within it and moved, half a megabyte more would be copied.
#[derive(Drop)]
struct Desk<'a> {
    live: &'a mut Live<FRAMES>,
}

// A block with the gate, the frequency and the velocity as they are throughout, and nothing else connected. Out of line, as `Live`'s
// calls are.
#[inline(never)]
fn play(live: &mut Live<FRAMES>, b: BlockLine) -> Result<(), Refusal> {
    let freq = [b.freq; 128];
    let gate = [if b.gate { 1.0 } else { 0.0 }; 128];
    let vel = [b.vel; 128];
    let inputs = Inputs {
        freq: Some(&freq),
        gate: Some(&gate),
        vel: Some(&vel),
        ..Inputs::default()
    };
    let mut left = [0.0; 128];
    let mut right = [0.0; 128];
    live.block(b.play, inputs, &mut left, &mut right)?;
    Ok(())
}

impl<'a> Desk<'a> {
    // The list after a step.
    fn show(&self, text: &mut Text) {
        let step = self.live.step;
        let session = &self.live.session;
        put_records(text, session, step);
        put_totals(text, session, step);
        text.end();
    }

    #[inline(never)]
    fn reset(&mut self, id: u64) -> Result<(), Refusal> {
        self.live.reset(id)?;
        Ok(())
    }
}

impl<'a> Script for Desk<'a> {
    type Refusal = Refusal;

    fn take(&mut self, text: &mut Text, _number: u64, line: &[u8]) -> Result<(), Refusal> {
        let d = read_desk(line).ok_or(Refusal::Unreadable)?;
        match d {
            DeskLine::Sample { rate, frames } => {
                add_sample(self.live.unbound()?, rate, frames);
                return Ok(());
            }
            DeskLine::Region(r) => {
                self.live.unbound()?.add_region(region_words(r));
                return Ok(());
            }
            DeskLine::Voice { rate } => return self.live.make(std::num::nearest_u32_to_f32(rate)),
            DeskLine::Block(b) => play(self.live, b)?,
            DeskLine::Reset(id) => self.reset(id)?,
            DeskLine::Close(id) => self.live.close(id)?,
        }
        self.show(text);
        Ok(())
    }
}

impl<'a> Again for Desk<'a> {
    fn forget(&mut self) {
        self.live.forget();
    }
}

// One script from a fresh session.
pub fn perform(feed: &mut Feed) {
    let mut text = Text::new();
    let mut live = Live::new();
    let mut desk = Desk { live: &mut live };
    script::perform(feed, &mut text, &mut desk);
}

// Many scripts, each from a fresh session.
pub fn replay() {
    let mut live = Live::new();
    let mut desk = Desk { live: &mut live };
    script::replay(&mut desk);
}
