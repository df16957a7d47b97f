// The program that the first voice binds, in the words that binding is lent (docs/PROGRAM.md).
ghost use Rattle.std.specs.Prelude.{◌≡◌, [], ◌∷◌, to_bits};
ghost use Rattle.std.specs.Float.{binary32};

use arrayvec::ArrayVec;
use exact::order::bits_f32;
use program::bind::{BindError, BoundProgram, bind};
use program::region::REGION_WORDS;
use program::sample::SAMPLE_WORDS;

// At most 256 regions and samples can be bound. One more of each is kept, so that binding finds them too many.
#[derive(Drop)]
pub struct Store<const FRAMES: usize> {
    pub regions: ArrayVec<[u32; REGION_WORDS], 257>,
    pub samples: ArrayVec<[u32; SAMPLE_WORDS], 257>,
    pub frames: ArrayVec<f32, FRAMES>,
    pub table: [f32; 8194],
}

// The words of a sample whose frames begin at `start`.
pub fn sample_words(rate: f32, channels: u32, frames: u32, start: u32) -> [u32; SAMPLE_WORDS]
    ensures { result ≡ to_bits binary32 rate ∷ channels ∷ frames ∷ start ∷ [] }
{
    [bits_f32(rate), channels, frames, start]
}

impl<const FRAMES: usize> Store<FRAMES> {
    // A call of its own, so that what it copies while it is made takes no room on the stack later.
    #[inline(never)]
    pub fn new() -> Store<FRAMES> {
        Store {
            regions: ArrayVec::new(),
            samples: ArrayVec::new(),
            frames: ArrayVec::new(),
            table: [0.0; 8194],
        }
    }

    // As if nothing had been added.
    pub fn forget(&mut self) {
        self.regions.clear();
        self.samples.clear();
        self.frames.clear();
        self.table.fill(0.0);
    }

    // One that finds no room stands after a first one too many, and changes no answer.
    pub fn add_region(&mut self, words: [u32; REGION_WORDS]) {
        let _ = self.regions.try_push(words);
    }

    pub fn add_sample(&mut self, words: [u32; SAMPLE_WORDS]) {
        let _ = self.samples.try_push(words);
    }

    pub fn region_words(&self) -> &[u32] {
        self.regions.as_slice().as_flattened()
    }

    pub fn sample_words(&self) -> &[u32] {
        self.samples.as_slice().as_flattened()
    }

    pub fn bind(&self) -> Result<BoundProgram, BindError> {
        bind(
            self.region_words(),
            self.sample_words(),
            self.frames.as_slice(),
            &self.table,
        )
    }
}
