// The words of an R line's region and of an S line's sample, as binding is lent them. Their numbers are those of docs/PROGRAM.md's table, as in `program`'s
// readers: of 24 names for them 23 would stand here once, away from the table.
ghost use Rattle.std.specs.Prelude.{◌≡◌, ◌+◌, ◌<◌, replicate};
ghost use Rattle.desk_script.specs.Words.{default_region, option_words, region_words};
ghost use Rattle.desk_script.specs.Words as specs;

use lines::desk::RegionLine;
use lines::field::word_of;
use lister::store::{Store, sample_words};
use program::region::{REGION_WORDS, SILENCE};
use program::sample::SAMPLE_WORDS;

// `Region::default` of the Rust, over words that are 0. The test programs have the same words in a table: one for all would be a public
// name of `program` that no voice uses, and its loop would need an invariant and a lemma where these writes are their equation.
#[tactic(auto, unfolding(crate::specs::Words::default_region))]
fn default_region(w: &mut [u32; REGION_WORDS])
    ensures { w.new ≡ default_region w.old }
{
    w[2] = 127;
    w[4] = 127;
    w[5] = 60;
    w[39] = 0x42c8_0000;
    w[41] = 0x4348_0000;
    w[42] = 0xc348_0000;
    w[47] = 0x3a83_126f;
    w[48] = 0x3bc4_9ba6;
    w[50] = 0x42c8_0000;
    w[55] = 0x42c8_0000;
    w[56] = 0x42c8_0000;
}

// A word that says whether a value is there, and the value.
fn put_option(w: &mut [u32; REGION_WORDS], at: usize, o: Option<u32>)
    requires { at + 1 < 392 }
    ensures { w.new ≡ option_words at o w.old }
{
    w[at] = o.is_some() as u32;
    w[at + 1] = o.unwrap_or(0);
}

#[tactic(auto, unfolding(crate::specs::Words::region_words, crate::specs::Words::window_words, crate::specs::Words::mode_words, crate::specs::Words::rule_words, crate::specs::Words::turn_words, crate::specs::Words::choke_words, crate::specs::Words::polyphony_words,))]
pub(crate) fn region_words(r: RegionLine) -> [u32; REGION_WORDS]
    ensures { result ≡ region_words r (replicate 392 0) }
{
    let mut w = [0; REGION_WORDS];
    default_region(&mut w);
    w[0] = r.sample.unwrap_or(SILENCE);
    w[1] = r.window.lokey as u32;
    w[2] = r.window.hikey as u32;
    w[3] = r.window.lovel as u32;
    w[4] = r.window.hivel as u32;
    w[10] = r.loop_mode as u32;
    w[22] = r.trigger as u32;
    put_option(&mut w, 15, r.seq.map(|q| q.length));
    w[17] = r.seq.map(|q| q.position).unwrap_or(0);
    w[18] = word_of(r.group);
    put_option(&mut w, 19, r.off_by.map(word_of));
    put_option(&mut w, 23, r.note_polyphony);
    put_option(&mut w, 25, r.polyphony);
    w
}

// The words of an S line's sample: mono, its frames the first of the zeros that are lent.
#[tactic(auto, unfolding(crate::specs::Words::sample_words))]
fn sample_line_words(rate: u32, frames: u32) -> [u32; SAMPLE_WORDS]
    ensures { result ≡ specs.sample_words rate frames (replicate 4 0) }
{
    sample_words(std::num::nearest_u32_to_f32(rate), 1, frames, 0)
}

// A sample is silence: each plays the first of the same zeros.
pub(crate) fn add_sample<const N: usize>(store: &mut Store<N>, rate: u32, frames: u32) {
    for _ in store.frames.len()..frames as usize {
        let _ = store.frames.try_push(0.0);
    }
    store.add_sample(sample_line_words(rate, frames));
}
