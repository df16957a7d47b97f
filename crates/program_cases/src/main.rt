// Binds programs at the edge of each limit and one past it, and prints what binding says: 01's number, 0 where it binds, and the region or
// sample that goes with it, 0 where none does.
#![tactic(auto)]

use program::bind::{BindError, BoundProgram, bind};
use program::region::{REGION_WORDS, SILENCE};
use program::sample::SAMPLE_WORDS;
use std::io;

type RegionWords = [u32; REGION_WORDS];

type SampleWords = [u32; SAMPLE_WORDS];

// A region's word under test, the last value that binds and the first that does not, with the words set beforehand.
struct Edge {
    before: &'static [(usize, u32)],
    word: usize,
    binds: u32,
    refused: u32,
}

const EDGES: [Edge; 37] = [
    // sample: the last of two, past it
    Edge {
        before: &[],
        word: 0,
        binds: 1,
        refused: 2,
    },
    // silence, and the word before it
    Edge {
        before: &[],
        word: 0,
        binds: SILENCE,
        refused: SILENCE - 1,
    },
    // lokey
    Edge {
        before: &[(2, 127)],
        word: 1,
        binds: 127,
        refused: 128,
    },
    // hikey
    Edge {
        before: &[],
        word: 2,
        binds: 127,
        refused: 128,
    },
    // hikey, a word past 255
    Edge {
        before: &[],
        word: 2,
        binds: 0,
        refused: 0xffff_ffff,
    },
    // lovel
    Edge {
        before: &[(4, 127)],
        word: 3,
        binds: 127,
        refused: 128,
    },
    // hivel
    Edge {
        before: &[],
        word: 4,
        binds: 127,
        refused: 128,
    },
    // pitch_keycenter
    Edge {
        before: &[],
        word: 5,
        binds: 127,
        refused: 128,
    },
    // an empty key window
    Edge {
        before: &[(1, 60)],
        word: 2,
        binds: 60,
        refused: 59,
    },
    // an empty velocity window
    Edge {
        before: &[(3, 60)],
        word: 4,
        binds: 60,
        refused: 59,
    },
    // transpose
    Edge {
        before: &[],
        word: 6,
        binds: 127,
        refused: 128,
    },
    // transpose -127, -128
    Edge {
        before: &[],
        word: 6,
        binds: 0xffff_ff81,
        refused: 0xffff_ff80,
    },
    // loop start after its end
    Edge {
        before: &[(12, 1), (14, 10)],
        word: 13,
        binds: 10,
        refused: 11,
    },
    // seq_position past seq_length
    Edge {
        before: &[(15, 1), (16, 4)],
        word: 17,
        binds: 4,
        refused: 5,
    },
    // seq_position 0
    Edge {
        before: &[(15, 1), (16, 4)],
        word: 17,
        binds: 1,
        refused: 0,
    },
    // a point's velocity
    Edge {
        before: &[(29, 1)],
        word: 136,
        binds: 127,
        refused: 128,
    },
    // a point's gain
    Edge {
        before: &[(29, 1)],
        word: 264,
        binds: 0x7f7f_ffff,
        refused: 0x7f80_0000,
    },
    // the last point's gain
    Edge {
        before: &[(29, 128)],
        word: 391,
        binds: 0xff7f_ffff,
        refused: 0xff80_0000,
    },
    // rand
    Edge {
        before: &[(30, 1)],
        word: 31,
        binds: 0x7f7f_ffff,
        refused: 0x7fc0_0000,
    },
    // xf_vel
    Edge {
        before: &[(33, 1)],
        word: 37,
        binds: 0x7f7f_ffff,
        refused: 0x7f80_0000,
    },
    // the sixth filter's gain
    Edge {
        before: &[(27, 6)],
        word: 99,
        binds: 0x7f7f_ffff,
        refused: 0x7f80_0000,
    },
    // the sixth band's vel2gain
    Edge {
        before: &[(28, 6)],
        word: 135,
        binds: 0x7f7f_ffff,
        refused: 0x7f80_0000,
    },
    // pitch_keytrack 1,200
    Edge {
        before: &[],
        word: 39,
        binds: 0x4496_0000,
        refused: 0x4496_0001,
    },
    // pitch_keytrack -1,200
    Edge {
        before: &[],
        word: 39,
        binds: 0xc496_0000,
        refused: 0xc496_0001,
    },
    // tune_cents 9,600
    Edge {
        before: &[],
        word: 40,
        binds: 0x4616_0000,
        refused: 0x4616_0001,
    },
    // tune_cents -9,600
    Edge {
        before: &[],
        word: 40,
        binds: 0xc616_0000,
        refused: 0xc616_0001,
    },
    // bend_up_cents
    Edge {
        before: &[],
        word: 41,
        binds: 0x4616_0000,
        refused: 0x4616_0001,
    },
    // bend_down_cents
    Edge {
        before: &[],
        word: 42,
        binds: 0xc616_0000,
        refused: 0xc616_0001,
    },
    // delay 3,600 s
    Edge {
        before: &[],
        word: 43,
        binds: 0x4561_0000,
        refused: 0x4561_0001,
    },
    // attack
    Edge {
        before: &[],
        word: 44,
        binds: 0x4561_0000,
        refused: 0x4561_0001,
    },
    // hold
    Edge {
        before: &[],
        word: 45,
        binds: 0x4561_0000,
        refused: 0x4561_0001,
    },
    // decay
    Edge {
        before: &[],
        word: 46,
        binds: 0x4561_0000,
        refused: 0x4561_0001,
    },
    // release
    Edge {
        before: &[],
        word: 47,
        binds: 0x4561_0000,
        refused: 0x4561_0001,
    },
    // off_time
    Edge {
        before: &[],
        word: 48,
        binds: 0x4561_0000,
        refused: 0x4561_0001,
    },
    // delay_s
    Edge {
        before: &[],
        word: 49,
        binds: 0x4561_0000,
        refused: 0x4561_0001,
    },
    // a time far below 0, and minus infinity
    Edge {
        before: &[],
        word: 44,
        binds: 0xff7f_ffff,
        refused: 0xff80_0000,
    },
    // rt_decay_db_per_s, and a NaN
    Edge {
        before: &[],
        word: 57,
        binds: 0x7f7f_ffff,
        refused: 0xffc0_0001,
    },
];

// A sample's word under test, the last value that binds and the first that does not, for the second of two samples with 4 frames lent.
struct SampleEdge {
    word: usize,
    binds: u32,
    refused: u32,
}

const SAMPLE_EDGES: [SampleEdge; 8] = [
    // rate 768,000
    SampleEdge {
        word: 0,
        binds: 0x493b_8000,
        refused: 0x493b_8001,
    },
    // the least rate above 0, and 0
    SampleEdge {
        word: 0,
        binds: 0x0000_0001,
        refused: 0x0000_0000,
    },
    // an infinite rate
    SampleEdge {
        word: 0,
        binds: 0x472c_4400,
        refused: 0x7f80_0000,
    },
    // channels
    SampleEdge {
        word: 1,
        binds: 2,
        refused: 3,
    },
    // no channel
    SampleEdge {
        word: 1,
        binds: 1,
        refused: 0,
    },
    // as many frames as are lent, and one more
    SampleEdge {
        word: 2,
        binds: 4,
        refused: 5,
    },
    // no frame
    SampleEdge {
        word: 2,
        binds: 1,
        refused: 0,
    },
    // the last place for one frame, and past it
    SampleEdge {
        word: 3,
        binds: 3,
        refused: 4,
    },
];

// The words of `Region::default` that are not 0.
const DEFAULTS: [(usize, u32); 11] = [
    (2, 127),
    (4, 127),
    (5, 60),
    (39, 0x42c8_0000),
    (41, 0x4348_0000),
    (42, 0xc348_0000),
    (47, 0x3a83_126f),
    (48, 0x3bc4_9ba6),
    (50, 0x42c8_0000),
    (55, 0x42c8_0000),
    (56, 0x42c8_0000),
];

// A sample of 44,100 Hz, one channel of one frame, the first lent.
const SAMPLE: SampleWords = [0x472c_4400, 1, 1, 0];

fn put(words: &mut [u32], at: usize, v: u32) {
    if let Some(w) = words.get_mut(at) {
        *w = v;
    }
}

fn put_all(words: &mut [u32], values: &[(usize, u32)]) {
    for (at, v) in values {
        put(words, *at, *v);
    }
}

fn default_region() -> RegionWords {
    let mut r = [0u32; REGION_WORDS];
    put_all(&mut r, &DEFAULTS);
    r
}

fn show(rt: &impl Print, b: Result<BoundProgram, BindError>) -> io::Result<()> {
    match b {
        Ok(_) => println!(rt; "0 0"),
        Err(e) => println!(rt; "{} {}", e.number(), e.part().unwrap_or(0)),
    }
}

// These regions and samples, with four frames and a good table.
fn show_program(
    rt: &impl Print,
    regions: &[RegionWords],
    samples: &[SampleWords],
) -> io::Result<()> {
    let frames = [0.5f32; 4];
    let table = [0.0f32; 8194];
    show(
        rt,
        bind(
            regions.as_flattened(),
            samples.as_flattened(),
            &frames,
            &table,
        ),
    )
}

fn show_regions(rt: &impl Print, regions: &[RegionWords]) -> io::Result<()> {
    show_program(rt, regions, &[SAMPLE; 2])
}

fn show_samples_of(rt: &impl Print, samples: &[SampleWords]) -> io::Result<()> {
    show_program(rt, &[default_region()], samples)
}

// Two regions, the second with the edge's words and this value.
fn show_edge(rt: &impl Print, edge: &Edge, v: u32) -> io::Result<()> {
    let mut second = default_region();
    put_all(&mut second, edge.before);
    put(&mut second, edge.word, v);
    show_regions(rt, &[default_region(), second])
}

fn show_edges(rt: &impl Print) -> io::Result<()> {
    for edge in &EDGES {
        show_edge(rt, edge, edge.binds)?;
        show_edge(rt, edge, edge.refused)?;
    }
    Ok(())
}

// One region with a count of filters, bands or velocity points.
fn show_count(rt: &impl Print, word: usize, count: u32) -> io::Result<()> {
    let mut region = default_region();
    put(&mut region, word, count);
    show_regions(rt, &[region])
}

fn show_counts(rt: &impl Print) -> io::Result<()> {
    show_count(rt, 27, 6)?;
    show_count(rt, 27, 7)?;
    show_count(rt, 28, 6)?;
    show_count(rt, 28, 7)?;
    show_count(rt, 29, 128)?;
    show_count(rt, 29, 129)?;
    show_regions(rt, &[default_region(); 256])?;
    show_regions(rt, &[default_region(); 257])?;
    show_samples_of(rt, &[SAMPLE; 256])?;
    show_samples_of(rt, &[SAMPLE; 257])
}

// Two samples, the second with this word.
fn show_sample(rt: &impl Print, word: usize, v: u32) -> io::Result<()> {
    let mut second = SAMPLE;
    put(&mut second, word, v);
    show_samples_of(rt, &[SAMPLE, second])
}

fn show_sample_edges(rt: &impl Print) -> io::Result<()> {
    for edge in &SAMPLE_EDGES {
        show_sample(rt, edge.word, edge.binds)?;
        show_sample(rt, edge.word, edge.refused)?;
    }
    Ok(())
}

// The second sample has `channels` of `frames` frames, and the last frame lent is infinite.
fn show_frames(rt: &impl Print, channels: u32, frames: u32) -> io::Result<()> {
    let second = [SAMPLE[0], channels, frames, 0];
    let lent = [0.5f32, 0.5f32, 0.5f32, f32::INFINITY];
    let table = [0.0f32; 8194];
    show(
        rt,
        bind(
            &default_region(),
            [SAMPLE, second].as_flattened(),
            &lent,
            &table,
        ),
    )
}

fn show_samples(rt: &impl Print) -> io::Result<()> {
    show_sample_edges(rt)?;
    show_frames(rt, 1, 3)?;
    show_frames(rt, 1, 4)?;
    show_frames(rt, 2, 1)?;
    show_frames(rt, 2, 2)?;
    show_frames(rt, 2, 3)
}

// One region, one sample and this table.
fn show_table(
    rt: &impl Print,
    words: &RegionWords,
    sample: &SampleWords,
    table: &[f32],
) -> io::Result<()> {
    show(rt, bind(words, sample, &[0.5f32; 4], table))
}

fn show_tables(rt: &impl Print) -> io::Result<()> {
    let words = default_region();
    show_table(rt, &words, &SAMPLE, &[0.0f32; 8193])?;
    show_table(rt, &words, &SAMPLE, &[0.0f32; 8194])?;
    show_table(rt, &words, &SAMPLE, &[0.0f32; 8195])
}

// What is wrong is mended one by one: the count, the region, the sample; the table stays wrong.
fn show_order(rt: &impl Print) -> io::Result<()> {
    let table = [0.0f32; 8193];
    let mut words = default_region();
    let mut sample = SAMPLE;
    put_all(&mut words, &[(0, 9), (27, 7)]);
    put(&mut sample, 1, 3);
    show_table(rt, &words, &sample, &table)?;
    put(&mut words, 27, 0);
    show_table(rt, &words, &sample, &table)?;
    put(&mut words, 0, 0);
    show_table(rt, &words, &sample, &table)?;
    put(&mut sample, 1, 1);
    show_table(rt, &words, &sample, &table)
}

fn write(rt: &impl Print) -> io::Result<()> {
    show_edges(rt)?;
    show_counts(rt)?;
    show_samples(rt)?;
    show_tables(rt)?;
    show_order(rt)
}

// What cannot be written is lost: the program ends as it does where all is written.
fn main(rt: HostRuntime) {
    let _ = write(&rt);
}
