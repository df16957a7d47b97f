// Binding a program: 01's tests 1 to 4, and the program's share of its test 8.
ghost use Rattle.std.specs.Prelude.{◌≡◌, ◌/◌, ◌<◌, true, find, not, IfSome};
ghost use Rattle.std.specs.List.{list_all, range_with_len};
ghost use Rattle.program.specs.Valid.{every};
ghost use Rattle.program.specs.Bind.{region_count, sample_count, counts_in, region_in, bad_sample, shape_in, size_tests, counts_ok, table_ok, answer_of, binding, error_number, error_part, program_ok};

use super::check::{counts_in, region_ok};
use super::region::REGION_WORDS;
use super::sample::{SAMPLE_WORDS, all_finite, sample_of, sample_ok, shape_ok};

// Regions of a program, and samples.
const MAX_PARTS: usize = 256;
// Entries of the sinc table.
const TABLE_LEN: usize = 8194;

// What binding makes of a program: how many regions, samples and frames it has. Nothing else is kept, so that a block finds again by the
// same tests whether a bound program belongs to what it is lent.
#[derive(Clone, Copy, PartialEq, Eq)]
pub struct BoundProgram {
    pub regions: u32,
    pub samples: u32,
    pub frames: usize,
}

// 01's numbers 1 to 4, the second and third with the first such region or sample.
#[derive(Clone, Copy, Debug, PartialEq, Eq)]
pub enum BindError {
    Counts,
    BadRegion(u32),
    BadSample(u32),
    BadTable,
}

impl BindError {
    // 01's number of it, 1 to 4.
    pub fn number(self) -> u64
        ensures { result ≡ error_number self }
    {
        match self {
            BindError::Counts => 1,
            BindError::BadRegion(_) => 2,
            BindError::BadSample(_) => 3,
            BindError::BadTable => 4,
        }
    }

    // The region or sample that goes with the number.
    pub fn part(self) -> Option<u32>
        ensures { result ≡ error_part self }
    {
        match self {
            BindError::BadRegion(i) | BindError::BadSample(i) => Some(i),
            BindError::Counts | BindError::BadTable => None,
        }
    }
}

#[tactic(auto, unfolding(crate::specs::Bind::table_ok))]
fn table_ok(table: &[f32]) -> bool
    ensures { result ≡ table_ok table.now }
{
    table.len() == TABLE_LEN && all_finite(table)
}

// Test 1: no more regions and samples than there may be, and no region with more than 6 filters, 6 bands or 128 velocity points.
#[tactic(auto, unfolding(crate::specs::Bind::counts_ok))]
fn counts_ok(words: &[u32], samples: &[u32]) -> bool
    ensures { result ≡ counts_ok words.now samples.now }
{
    words.len() / REGION_WORDS <= MAX_PARTS
        && samples.len() / SAMPLE_WORDS <= MAX_PARTS
        && words.as_chunks().0.iter().all(counts_in)
}

// The first of the regions, which pass test 1, that test 2 refuses where there are m samples.
fn first_bad_region(words: &[u32], m: u32) -> Option<usize>
    requires { list_all (counts_in words.now) (range_with_len 0 (region_count words.now)) ≡ true }
    ensures first { result ≡ find (λ i. not (region_in words.now m i)) (range_with_len 0 (region_count words.now)) }
    ensures there { IfSome result (λ i. i < region_count words.now) }
{
    words.as_chunks().0.iter().position(|r| !region_ok(r, m))
}

// The first of the samples that test 3 refuses.
fn first_bad_sample(samples: &[u32], frames: &[f32]) -> Option<usize>
    ensures first { result ≡ bad_sample samples.now frames.now }
    ensures there { IfSome result (λ j. j < sample_count samples.now) }
{
    samples
        .as_chunks()
        .0
        .iter()
        .position(|s| !sample_ok(sample_of(s), frames))
}

// Binds a program: the regions' words, the samples' words, the frames and the sinc table, which C lends one by one (docs/PROGRAM.md). A
// struct of the four would be made for this call alone: a block's test has two of them and two lengths, a lookup one.
#[tactic(auto, unfolding(crate::specs::Bind::binding))]
pub fn bind(
    words: &[u32],
    samples: &[u32],
    frames: &[f32],
    table: &[f32],
) -> Result<BoundProgram, BindError>
    ensures { answer_of result ≡ binding words.now samples.now frames.now table.now }
{
    if !counts_ok(words, samples) {
        return Err(BindError::Counts);
    }
    let n = (words.len() / REGION_WORDS) as u32;
    let m = (samples.len() / SAMPLE_WORDS) as u32;
    if let Some(i) = first_bad_region(words, m) {
        return Err(BindError::BadRegion(i as u32));
    }
    if let Some(j) = first_bad_sample(samples, frames) {
        return Err(BindError::BadSample(j as u32));
    }
    if !table_ok(table) {
        return Err(BindError::BadTable);
    }
    Ok(BoundProgram {
        regions: n,
        samples: m,
        frames: frames.len(),
    })
}

// Whether the regions, which pass test 1, pass test 2 where there are m samples.
fn regions_ok(words: &[u32], m: u32) -> bool
    requires { list_all (counts_in words.now) (range_with_len 0 (region_count words.now)) ≡ true }
    ensures { result ≡ list_all (region_in words.now m) (range_with_len 0 (region_count words.now)) }
{
    words.as_chunks().0.iter().all(|r| region_ok(r, m))
}

// Whether the samples pass test 3 without a look at the frames, of which there are `total`.
fn shapes_ok(samples: &[u32], total: usize) -> bool
    ensures { result ≡ list_all (shape_in samples.now total) (range_with_len 0 (sample_count samples.now)) }
{
    samples
        .as_chunks()
        .0
        .iter()
        .all(|s| shape_ok(sample_of(s), total))
}

// Whether as many words of regions and samples are lent as b has, and no fewer frames and entries of the table.
fn sizes_ok(b: BoundProgram, words: usize, samples: usize, frames: usize, table: usize) -> bool
    ensures { result ≡ every (size_tests b (words / 392) (samples / 4) frames table) }
{
    words / REGION_WORDS == (b.regions as usize)
        && samples / SAMPLE_WORDS == (b.samples as usize)
        && b.frames <= frames
        && TABLE_LEN <= table
}

// The program's share of 01's test 8, on every block: whether binding makes b of these regions and samples, as far as their words show it,
// and frames and table, lent at these lengths, are not shorter than bound.
pub fn program_ok(
    b: BoundProgram,
    words: &[u32],
    samples: &[u32],
    frames: usize,
    table: usize,
) -> bool
    ensures { result ≡ program_ok b words.now samples.now frames table }
{
    if !sizes_ok(b, words.len(), samples.len(), frames, table) {
        return false;
    }
    if !counts_ok(words, samples) {
        return false;
    }
    regions_ok(words, b.samples) && shapes_ok(samples, b.frames)
}
