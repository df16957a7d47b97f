// Test 2 of a binding, on one region's words: the Rust's `validate_region`, with the limits that 01 adds to it.
ghost use Rattle.std.specs.Prelude.{◌≡◌, ◌&&◌, ◌≤◌, map, leb, take, drop};
ghost use Rattle.std.specs.List.{list_all};
ghost use Rattle.program.specs.Region.{byte_of, float_of, signed_of, word, sample_named, region_of};
ghost use Rattle.program.specs.Valid.{every, all_finite, window_tests, keys_tests, sample_known, loop_in_order, seq_in_turn, constants, rand_numbers, crossfade_numbers, filters_finite, bands_finite, not_above, within, times_tests, transpose_tests, pitch_tests, point_tests, limit_tests, chosen_tests, number_tests, place_tests, valid_region, counts_tests};

use super::region::{
    REGION_WORDS, byte_of, crossfade_of, float_of, loop_points_of, rand_of, sample_named, seq_of,
    signed_of,
};

// Whether the words are finite singles: the largest magnitude decides, so that the loop has no branch.
fn all_finite(words: &[u32]) -> bool
    ensures { result ≡ all_finite (map float_of words.now) }
{
    words
        .iter()
        .fold(0, |worst: u32, w| worst.max(*w % 0x8000_0000))
        < 0x7f80_0000
}

// Whether no byte of the words is above 127: the same walk, but it is no plainer with the measure and the limit as parameters.
fn all_keys(words: &[u32]) -> bool
    ensures { result ≡ list_all (λ v. leb v 127) (map byte_of words.now) }
{
    words.iter().fold(0, |worst: u32, w| worst.max(*w)) < 128
}

// No window empty.
#[tactic(auto, unfolding(crate::specs::Region::region_of, crate::specs::Region::window_of))]
fn windows_ok(r: &[u32; REGION_WORDS]) -> bool
    ensures { result ≡ every (window_tests (region_of r.now)) }
{
    byte_of(r[1]) <= byte_of(r[2]) && byte_of(r[3]) <= byte_of(r[4])
}

// No key and no velocity above 127, no window empty.
#[tactic(auto, using(crate::proofs::Checks::keys_are))]
fn keys_ok(r: &[u32; REGION_WORDS]) -> bool
    ensures { result ≡ every (keys_tests (region_of r.now)) }
{
    all_keys(&r[1..6]) && windows_ok(r)
}

// Silence, or one of n samples.
fn sample_ok(s: u32, n: u32) -> bool
    ensures { result ≡ sample_known n (sample_named s) }
{
    sample_named(s).is_none_or(|j| j < n)
}

#[tactic(auto, unfolding(crate::specs::Region::region_of, crate::specs::Region::playback_of))]
fn loop_ok(r: &[u32; REGION_WORDS]) -> bool
    ensures { result ≡ loop_in_order (region_of r.now).play.loop_points }
{
    loop_points_of(r).is_none_or(|points| points.start <= points.end)
}

#[tactic(auto, unfolding(crate::specs::Region::region_of, crate::specs::Region::choice_of))]
fn seq_ok(r: &[u32; REGION_WORDS]) -> bool
    ensures { result ≡ seq_in_turn (region_of r.now).chosen.seq }
{
    seq_of(r).is_none_or(|seq| (1..=seq.length).contains(&seq.position))
}

#[tactic(auto, using(crate::proofs::Checks::rand_are), unfolding(crate::specs::Region::region_of, crate::specs::Region::choice_of))]
fn rand_ok(r: &[u32; REGION_WORDS]) -> bool
    ensures { result ≡ all_finite (rand_numbers (region_of r.now).chosen.rand) }
{
    rand_of(r).is_none_or(|rand| rand.lo.is_finite() && rand.hi.is_finite())
}

#[tactic(auto, using(crate::proofs::Checks::crossfade_are), unfolding(crate::specs::Region::region_of, crate::specs::Region::level_of, crate::specs::Region::crossfade_of))]
fn crossfade_ok(r: &[u32; REGION_WORDS]) -> bool
    ensures { result ≡ all_finite (crossfade_numbers (region_of r.now).level.xf_vel) }
{
    crossfade_of(r).is_none_or(|x| {
        x.in_lo.is_finite() && x.in_hi.is_finite() && x.out_lo.is_finite() && x.out_hi.is_finite()
    })
}

// Whether the first `count` filters have finite numbers, which stand behind a filter's kind and key.
fn filters_finite(filters: &[[u32; 7]], count: u32) -> bool
    ensures { result ≡ list_all (λ f. all_finite (map float_of (take 5 (drop 2 f)))) (take count filters.now) }
{
    filters
        .iter()
        .take(count as usize)
        .all(|f| all_finite(&f[2..]))
}

#[tactic(auto, using(crate::proofs::Checks::filters_are))]
fn filters_ok(r: &[u32; REGION_WORDS]) -> bool
    ensures { result ≡ filters_finite (region_of r.now) }
{
    filters_finite(r[58..100].as_chunks().0, r[27])
}

// Whether the first `count` bands have finite numbers, which stand behind a band's kind. One function for parts of N words was tried, and
// its proof didn't close: a closure on `[u32; N]` has no contract that is read off its body.
fn bands_finite(bands: &[[u32; 6]], count: u32) -> bool
    ensures { result ≡ list_all (λ b. all_finite (map float_of (take 5 (drop 1 b)))) (take count bands.now) }
{
    bands
        .iter()
        .take(count as usize)
        .all(|b| all_finite(&b[1..]))
}

#[tactic(auto, using(crate::proofs::Checks::bands_are))]
fn bands_ok(r: &[u32; REGION_WORDS]) -> bool
    ensures { result ≡ bands_finite (region_of r.now) }
{
    bands_finite(r[100..136].as_chunks().0, r[28])
}

// Whether the times with these bits are at most 3,600 s (a NaN is refused elsewhere).
fn all_in_time(words: &[u32]) -> bool
    ensures { result ≡ list_all (λ w. not_above (float_of 0x4561_0000) (float_of w)) words.now }
{
    words.iter().all(|w| !(3600.0 < float_of(*w)))
}

#[tactic(auto, using(crate::proofs::Checks::times_are))]
fn times_ok(r: &[u32; REGION_WORDS]) -> bool
    ensures { result ≡ every (times_tests (region_of r.now)) }
{
    all_in_time(&r[43..50])
}

// Whether the single with these bits is at most the limit away from 0 (a NaN is refused elsewhere).
fn within(limit: f32, w: u32) -> bool
    ensures { result ≡ within limit (float_of w) }
{
    let x = float_of(w);
    !(x < -limit) && !(limit < x)
}

fn transpose_ok(w: u32) -> bool
    ensures { result ≡ every (transpose_tests (signed_of w)) }
{
    let t = signed_of(w);
    -127 <= t && t <= 127
}

#[tactic(auto, unfolding(crate::specs::Valid::pitch_tests, crate::specs::Region::region_of, crate::specs::Region::pitch_of))]
fn pitch_ok(r: &[u32; REGION_WORDS]) -> bool
    ensures { result ≡ every (pitch_tests (region_of r.now)) }
{
    within(1200.0, r[39])
        && within(9600.0, r[40])
        && within(9600.0, r[41])
        && within(9600.0, r[42])
        && transpose_ok(r[6])
}

// Test 1 of one region: at most 6 filters, 6 bands and 128 velocity points.
pub(crate) fn counts_in(r: &[u32; REGION_WORDS]) -> bool
    ensures { result ≡ every (counts_tests r.now) }
{
    r[27] <= 6 && r[28] <= 6 && r[29] <= 128
}

// The velocity points: no velocity above 127, every gain finite.
#[tactic(auto, using(crate::proofs::Checks::points_are))]
fn points_ok(r: &[u32; REGION_WORDS]) -> bool
    requires { word r.now 29 ≤ 128 }
    ensures { result ≡ every (point_tests r.now) }
{
    let n = r[29] as usize;
    all_keys(&r[136..136 + n]) && all_finite(&r[264..264 + n])
}

// The numbers that every region has.
#[tactic(auto, using(crate::proofs::Checks::constants_are))]
fn constants_ok(r: &[u32; REGION_WORDS]) -> bool
    ensures { result ≡ all_finite (constants (region_of r.now)) }
{
    all_finite(&r[39..58])
}

// The limits that 01 adds.
#[tactic(auto, unfolding(crate::specs::Valid::limit_tests))]
fn limits_ok(r: &[u32; REGION_WORDS]) -> bool
    ensures { result ≡ every (limit_tests (region_of r.now)) }
{
    times_ok(r) && pitch_ok(r)
}

// The numbers that stand in the words where others say so.
#[tactic(auto, unfolding(crate::specs::Valid::chosen_tests))]
fn chosen_ok(r: &[u32; REGION_WORDS]) -> bool
    ensures { result ≡ every (chosen_tests (region_of r.now)) }
{
    rand_ok(r) && crossfade_ok(r) && filters_ok(r) && bands_ok(r)
}

// The other numbers: finite, and within the limits.
#[tactic(auto, unfolding(crate::specs::Valid::number_tests))]
fn numbers_ok(r: &[u32; REGION_WORDS]) -> bool
    ensures { result ≡ every (number_tests (region_of r.now)) }
{
    constants_ok(r) && chosen_ok(r) && limits_ok(r)
}

// What the region plays of its sample, and its turn among others.
#[tactic(auto, unfolding(crate::specs::Valid::place_tests, crate::specs::Region::region_of))]
fn places_ok(r: &[u32; REGION_WORDS], n: u32) -> bool
    ensures { result ≡ every (place_tests n (region_of r.now)) }
{
    sample_ok(r[0], n) && loop_ok(r) && seq_ok(r)
}

// Test 2 of a region that passes test 1, where there are n samples.
#[tactic(auto, unfolding(crate::specs::Valid::valid_region))]
fn is_valid(r: &[u32; REGION_WORDS], n: u32) -> bool
    requires { word r.now 29 ≤ 128 }
    ensures { result ≡ valid_region n r.now }
{
    keys_ok(r) && places_ok(r, n) && points_ok(r) && numbers_ok(r)
}

// Whether the region with these words passes test 1 and may be bound where there are n samples.
pub(crate) fn region_ok(r: &[u32; REGION_WORDS], n: u32) -> bool
    ensures { result ≡ (every (counts_tests r.now) && valid_region n r.now) }
{
    counts_in(r) && is_valid(r, n)
}
