// What W, S, R, C, F and Q lines make of the program that the first voice binds: the words of docs/PROGRAM.md, the frames of the samples,
// and the sinc table.
ghost use Rattle.std.specs.Prelude.{◌+◌, ◌*◌, ◌<◌, ◌≤◌};

use exact::order::bits_f32;
use exact::random::splitmix64;
use lines::block::{Content, Line, SampleLine};
use lines::rows::{Part, put_part, store as put};
use lister::store::{Store, sample_words};
use program::region::REGION_WORDS;

// ---- regions

// A velocity point more. Its words stand in two lists beside a count, which is docs/PROGRAM.md's layout: binding is lent the words
// as they lie. A count that binding refuses is kept, and says no more than that.
fn put_point(w: &mut [u32; REGION_WORDS], velocity: u8, gain: f32) {
    let n = w[29];
    if n < 128 {
        let k = n as usize;
        w[136 + k] = velocity as u32;
        w[264 + k] = bits_f32(gain);
    }
    w[29] = n.min(128) + 1;
}

// A filter or a band more, likewise: of six groups of `width` words from `from` on, as many as the word `count` says are there.
fn put_group(
    line: &[u8],
    part: Part,
    w: &mut [u32; REGION_WORDS],
    count: usize,
    from: usize,
    width: usize,
)
    requires { (count < 392) × (0 < width) × (from + 6 * width ≤ 392) }
{
    let n = w[count];
    let groups = &mut w[from..from + 6 * width];
    if let Some(group) = groups.chunks_exact_mut(width).nth(n as usize) {
        put_part(line, part, group);
    }
    w[count] = n.min(6) + 1;
}

// Out of line, so that its words are cleared for a region and not for each line.
#[inline(never)]
fn add_region<const N: usize>(store: &mut Store<N>, line: &[u8]) {
    let mut w = [0; REGION_WORDS];
    put_part(line, Part::Region, &mut w);
    store.add_region(w);
}

// ---- samples

// Frame i of channel c of the noise of a seed.
fn noise(seed: u64, c: u32, i: u32) -> f32 {
    let place = seed.wrapping_add(((c as u64) << 32).wrapping_add(i as u64));
    let h = (splitmix64(place) >> 40) as i32;
    std::num::nearest_i32_to_f32(h - 8388608) / 8388608.0
}

fn frame(s: SampleLine, c: u32, i: u32) -> f32 {
    match s.content {
        Content::Zeros => 0.0,
        Content::Ones => 1.0,
        Content::Noise => noise(s.seed, c, i),
    }
}

// The frames of one channel, if there is room.
fn add_channel<const N: usize>(store: &mut Store<N>, s: SampleLine, c: u32) -> Option<()> {
    for i in 0..s.frames {
        store.frames.try_push(frame(s, c, i)).ok()?;
    }
    Some(())
}

// A sample's frames lie after those of the others, channel 1 after channel 0.
fn add_sample<const N: usize>(store: &mut Store<N>, s: SampleLine) -> Option<()> {
    let start = u32::try_from(store.frames.len()).ok()?;
    for c in 0..s.channels {
        add_channel(store, s, c)?;
    }
    store.add_sample(sample_words(s.rate, s.channels, s.frames, start));
    Some(())
}

// ---- a line

// What a line adds to the program; none where it adds nothing, or a part of a region that is not there.
pub fn add<const N: usize>(store: &mut Store<N>, d: Line, line: &[u8]) -> Option<()> {
    match d {
        Line::Entry { index, value } => put(&mut store.table, index as usize, value),
        Line::Sample(s) => add_sample(store, s)?,
        Line::Part(Part::Region) => add_region(store, line),
        Line::Point { velocity, gain } => put_point(store.regions.last_mut()?, velocity, gain),
        Line::Part(Part::Filter) => {
            put_group(line, Part::Filter, store.regions.last_mut()?, 27, 58, 7)
        }
        Line::Part(Part::Band) => put_group(
            line,
            Part::Band,
            store.regions.last_mut()?,
            28,
            100,
            6,
        ),
        _ => return None,
    }
    Some(())
}
