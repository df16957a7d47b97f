// The program that the cases play: region 0 is silence, region 1 goes round frames 2 to 5 of a sample of 8 frames.
use super::places::{
    BEND_DOWN, BEND_UP, HIKEY, HIVEL, KEYCENTER, KEYTRACK, LOOP, LOOP_END, LOOP_MODE, LOOP_START,
    OFF_TIME, RELEASE, SAMPLE, SUSTAIN, VELTRACK, WIDTH,
};
use program::bind::{BoundProgram, bind};
use program::region::{REGION_WORDS, SILENCE};

pub type RegionWords = [u32; REGION_WORDS];

// What a host lends with each call: the parts of a program.
#[derive(Clone, Copy)]
pub struct Lent<'a> {
    pub words: &'a [u32],
    pub samples: &'a [u32],
    pub pcm: &'a [f32],
    pub table: &'a [f32],
}

// The words of `Region::default` that are not 0, but silent.
const SILENT: [(usize, u32); 12] = [
    (SAMPLE, SILENCE),
    (HIKEY, 127),
    (HIVEL, 127),
    (KEYCENTER, 60),
    (KEYTRACK, 0x42c8_0000),
    (BEND_UP, 0x4348_0000),
    (BEND_DOWN, 0xc348_0000),
    (RELEASE, 0x3a83_126f),
    (OFF_TIME, 0x3bc4_9ba6),
    (SUSTAIN, 0x42c8_0000),
    (WIDTH, 0x42c8_0000),
    (VELTRACK, 0x42c8_0000),
];

// What makes such a region play sample 0 and loop.
const LOOPED: [(usize, u32); 5] = [
    (SAMPLE, 0),
    (LOOP_MODE, 2),
    (LOOP, 1),
    (LOOP_START, 2),
    (LOOP_END, 5),
];

// One sample: 44,100 Hz, one channel of 8 frames, the first lent.
pub const ONE_SAMPLE: [u32; 4] = [0x472c_4400, 1, 8, 0];

// Its frames and the table, each with one more than is bound.
pub static PCM: [f32; 9] = [0.5; 9];

pub static TABLE: [f32; 8195] = [0.0; 8195];

const UNBOUND: BoundProgram = BoundProgram {
    regions: 0,
    samples: 0,
    frames: 0,
};

pub fn put(words: &mut [u32], at: usize, v: u32) {
    if let Some(w) = words.get_mut(at) {
        *w = v;
    }
}

fn put_all(words: &mut [u32], values: &[(usize, u32)]) {
    for (at, v) in values {
        put(words, *at, *v);
    }
}

pub fn silent_region() -> RegionWords {
    let mut r = [0u32; REGION_WORDS];
    put_all(&mut r, &SILENT);
    r
}

pub fn regions() -> [RegionWords; 2] {
    let mut looped = silent_region();
    put_all(&mut looped, &LOOPED);
    [silent_region(), looped]
}

// These regions with the usual sample, frames and table.
pub fn lent_with(words: &[u32]) -> Lent<'_> {
    Lent {
        words,
        samples: &ONE_SAMPLE,
        pcm: &PCM[..8],
        table: &TABLE[..8194],
    }
}

pub fn bound(lent: Lent<'_>) -> BoundProgram {
    bind(lent.words, lent.samples, lent.pcm, lent.table).unwrap_or(UNBOUND)
}

pub fn program() -> BoundProgram {
    bound(lent_with(regions().as_flattened()))
}
