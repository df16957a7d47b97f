// Lookup in a bound program: the Rust's `regions_for_key`, `sample_of` and `has_release_for`.
// Each takes the words and a region's number, which the crates above have apart: methods of a struct of the words would be nine functions
// more behind these, or `Regions { words }` at each call.
ghost use Rattle.std.specs.Prelude.{◌≡◌};
ghost use Rattle.program.specs.Region.{region_at};
ghost use Rattle.program.specs.Lookup.{holds_key, regions_from, first_of, releases, has_release_for, sample_of_region};

use super::region::{Choice, Window, choice_of, sample_named, window_of, words_of};
use super::sample::{SAMPLE_WORDS, Sample, sample_at};

// Region i's windows, without the rest of the region.
#[tactic(auto, unfolding(crate::specs::Region::region_of))]
pub fn window_at(words: &[u32], i: u32) -> Window
    ensures { result ≡ (region_at words.now i).window }
{
    window_of(words_of(words, i))
}

// When a note starts region i, without the rest of the region.
#[tactic(auto, unfolding(crate::specs::Region::region_of))]
pub fn choice_at(words: &[u32], i: u32) -> Choice
    ensures { result ≡ (region_at words.now i).chosen }
{
    choice_of(words_of(words, i))
}

// The number of region i's sample, without the rest of the region.
#[tactic(auto, unfolding(crate::specs::Region::region_of))]
pub fn sample_index(words: &[u32], i: u32) -> Option<u32>
    ensures { result ≡ (region_at words.now i).sample }
{
    sample_named(words_of(words, i)[0])
}

// Whether region i's key window holds the key; a key above 127 counts as 127.
pub fn holds_key(words: &[u32], key: u8, i: u32) -> bool
    ensures { result ≡ holds_key words.now key i }
{
    let w = window_at(words, i);
    (w.lokey..=w.hikey).contains(&key.min(127))
}

// The next of n regions, from `from` on, whose key window holds the key. n is the caller's: past the regions that are there a number means
// a region of zeros, which no slice of them would hold. Stepping it from 0 meets the Rust's `regions_for_key` in order.
pub fn next_for_key(words: &[u32], n: u32, key: u8, from: u32) -> Option<u32>
    ensures { result ≡ first_of (regions_from words.now n key from) }
{
    (from..n).find(|i| holds_key(words, key, *i))
}

// Whether region i is a release region whose velocity window holds the velocity.
fn releases_at(words: &[u32], vel: u8, i: u32) -> bool
    ensures { result ≡ releases words.now vel i }
{
    let w = window_at(words, i);
    choice_at(words, i).trigger.is_release() && (w.lovel..=w.hivel).contains(&vel)
}

// Whether some release region of n could start for the key and the velocity.
pub fn has_release_for(words: &[u32], n: u32, key: u8, vel: u8) -> bool
    ensures { result ≡ has_release_for words.now n key vel }
{
    (0..n).any(|i| holds_key(words, key, i) && releases_at(words, vel, i))
}

// The sample that region i reads. Silence, and an index outside the table, read none.
#[tactic(auto, unfolding(crate::specs::Lookup::sample_of_region))]
pub fn sample_of(words: &[u32], samples: &[u32], i: u32) -> Option<Sample>
    ensures { result ≡ sample_of_region words.now samples.now i }
{
    match sample_index(words, i) {
        Some(j) if (j as usize) < samples.len() / SAMPLE_WORDS => Some(sample_at(samples, j)),
        _ => None,
    }
}
