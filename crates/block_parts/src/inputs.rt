// The seven inputs of a block as I lines set them.
use block::inputs::Inputs;
use lines::block::{Input, Set};

// 128 frames of each, in the order of their numbers; none where it is disconnected.
#[derive(Drop)]
pub struct Held {
    frames: [Option<[f32; 128]>; 7],
}

impl Held {
    pub fn new() -> Held {
        Held { frames: [None; 7] }
    }

    // None is connected.
    pub fn forget(&mut self) {
        for frames in &mut self.frames {
            *frames = None;
        }
    }

    // From the frame to the last an input has the value. Before it, one that was disconnected has zeros.
    pub fn set(&mut self, input: Input, set: Option<Set>) {
        if let Some(held) = self.frames.get_mut(input as usize) {
            *held = set.map(|set| {
                let mut frames = held.unwrap_or([0.0; 128]);
                let from = (set.frame as usize).min(128);
                frames[from..].fill(set.value);
                frames
            });
        }
    }

    fn input(&self, input: Input) -> Option<&[f32]> {
        match self.frames.get(input as usize) {
            Some(Some(frames)) => Some(frames),
            _ => None,
        }
    }

    pub fn inputs(&self) -> Inputs<'_> {
        Inputs {
            freq: self.input(Input::Freq),
            gate: self.input(Input::Gate),
            vel: self.input(Input::Vel),
            amp: self.input(Input::Amp),
            seed: self.input(Input::Seed),
            bend: self.input(Input::Bend),
            quality: self.input(Input::Quality),
        }
    }
}
