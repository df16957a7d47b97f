// A sample: four words, and frames of its own among those that are lent.
ghost use Rattle.std.specs.Prelude.{◌≡◌, ◌+◌, ◌*◌, ◌≤◌, ◌<◌, length, take, drop};
ghost use Rattle.std.specs.Float.{float_is_finite};
ghost use Rattle.program.specs.Valid.{every, all_finite};
ghost use Rattle.program.specs.Sample.{sample_of, sample_at, rate_tests, shape_tests, sample_tests};

use super::region::float_of;

// Words of one sample.
pub const SAMPLE_WORDS: usize = 4;

const MAX_CHANNELS: u32 = 2;
// Of one channel.
const MAX_FRAMES: u32 = 2_147_483_647;
// Hz.
const MAX_RATE: f32 = 768_000.0;

// `rate` in Hz; `frames` per channel; `start`, the first frame's place among those lent. Channel 1 follows channel 0. Places and not slices:
// the host lends all frames anew at each call, and a player holds its sample from one to the next.
#[derive(Clone, Copy)]
pub struct Sample {
    pub rate: f32,
    pub channels: u32,
    pub frames: u32,
    pub start: u32,
}

// The sample that its words mean.
pub(crate) fn sample_of(words: &[u32; SAMPLE_WORDS]) -> Sample
    ensures { result ≡ sample_of words.now 0 }
{
    let [rate, channels, frames, start] = *words;
    Sample {
        rate: float_of(rate),
        channels,
        frames,
        start,
    }
}

// Sample `j` of the program's words. Where there is none, every word of it counts as 0.
pub fn sample_at(samples: &[u32], j: u32) -> Sample
    ensures { result ≡ sample_at samples.now j }
{
    let (samples, _) = samples.as_chunks();
    sample_of(samples.get(j as usize).unwrap_or(&[0; SAMPLE_WORDS]))
}

// Rust's `is_finite`.
pub fn is_finite(x: f32) -> bool
    ensures { result ≡ float_is_finite x }
{
    x.is_finite()
}

pub(crate) fn all_finite(frames: &[f32]) -> bool
    ensures { result ≡ all_finite frames.now }
{
    frames.iter().all(|x| x.is_finite())
}

// A rate above 0 and at most 768,000.
fn rate_ok(rate: f32) -> bool
    ensures { result ≡ every (rate_tests rate) }
{
    rate.is_finite() && !(rate <= 0.0) && !(MAX_RATE < rate)
}

// The frames of all channels together.
fn size(s: Sample) -> usize
    requires { (s.channels ≤ 2) × (s.frames ≤ 2147483647) }
    ensures { result ≡ s.channels * s.frames }
{
    (s.channels as usize) * (s.frames as usize)
}

// All that test 3 asks of a sample but that its frames are finite, where `total` frames are lent.
pub fn shape_ok(s: Sample, total: usize) -> bool
    ensures { result ≡ every (shape_tests total s) }
{
    0 < s.channels
        && s.channels <= MAX_CHANNELS
        && rate_ok(s.rate)
        && 0 < s.frames
        && s.frames <= MAX_FRAMES
        && (s.start as usize) + size(s) <= total
}

// Test 3 of one sample.
pub fn sample_ok(s: Sample, frames: &[f32]) -> bool
    ensures { result ≡ every (sample_tests frames.now s) }
{
    let start = s.start as usize;
    shape_ok(s, frames.len()) && all_finite(&frames[start..start + size(s)])
}
