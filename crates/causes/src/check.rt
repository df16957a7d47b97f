// 01's causes to turn a call back, each by itself: 5, 7, 8 and 9. Each is a bool and not a `Result`, since the definitions list several
// tests under one number and ask that every one holds.
ghost use Rattle.std.specs.Prelude.{◌≡◌, length, option_map};
ghost use Rattle.std.specs.List.{list_any};
ghost use Rattle.std.specs.Option.{option_copied};
ghost use Rattle.block.specs.Inputs.{signals_of};
ghost use Rattle.program.specs.Valid.{every};
ghost use Rattle.causes.specs.Tests.{rate_fits, falls_short, lengths_fit, parts_fit, over_players, live_tests, session_tests, voice_tests, well_formed, program_fits, state_fits, in_time};

use super::Lengths;
use super::tally::others_fit;
use block::inputs::Inputs;
use events::SampleVoice;
use player_checks::check::{players_fit, samples_fit};
use players::{Players, slots_of};
use program::bind::program_ok;
use session::{
    Session, is_live, over_held, over_live, over_records, region_outside, slots_in_order,
    twice_live,
};

// 5: from 8,000 to 192,000.
#[tactic(auto, unfolding(crate::specs::Tests::rate_fits))]
pub fn rate_fits(rate: f32) -> bool
    ensures { result ≡ rate_fits rate }
{
    8000.0 <= rate && rate <= 192000.0
}

// 7: a connected input's length below the block's.
fn is_short(length: Option<usize>, frames: usize) -> bool
    ensures { result ≡ falls_short length frames }
{
    length.is_some_and(|n| n < frames)
}

// 7: one of the connected inputs' lengths is below the block's.
fn any_short(lengths: &[Option<usize>], frames: usize) -> bool
    ensures { result ≡ list_any (λ x. falls_short x frames) lengths.now }
{
    lengths.iter().any(|length| is_short(*length, frames))
}

// 7: a block of 1 to 128 frames, and no length below it.
pub fn lengths_fit(frames: usize, x: Lengths) -> bool
    ensures { result ≡ lengths_fit frames x }
{
    if frames == 0 {
        return false;
    }
    if 128 < frames {
        return false;
    }
    if x.left < frames {
        return false;
    }
    if x.right < frames {
        return false;
    }
    !any_short(
        &[x.freq, x.gate, x.vel, x.amp, x.seed, x.bend, x.quality],
        frames,
    )
}

// The length of a connected input.
fn length_of(input: Option<&[f32]>) -> Option<usize>
    ensures { result ≡ option_map length (option_copied input.entry) }
{
    input.map(|xs| xs.len())
}

// 7: a block of 1 to 128 frames, and no lent part shorter than it.
pub fn parts_fit(frames: usize, inputs: Inputs<'_>, left: usize, right: usize) -> bool
    ensures { result ≡ parts_fit frames (signals_of inputs.entry) left right }
{
    lengths_fit(
        frames,
        Lengths {
            freq: length_of(inputs.freq),
            gate: length_of(inputs.gate),
            vel: length_of(inputs.vel),
            amp: length_of(inputs.amp),
            seed: length_of(inputs.seed),
            bend: length_of(inputs.bend),
            quality: length_of(inputs.quality),
            left,
            right,
        },
    )
}

// 8: more than 32 players.
pub fn over_players(ps: &Players) -> bool
    ensures { result ≡ over_players ps.now }
{
    32 < ps.count
}

// 8: the session's live voices, and how many records there are.
pub(super) fn live_fits(s: &Session, id: u64) -> bool
    ensures { result ≡ every (live_tests id s.now) }
{
    is_live(s, id) && !over_live(s) && !twice_live(s) && !over_records(s)
}

// 8: the session.
fn session_fits(s: &Session, id: u64) -> bool
    ensures { result ≡ every (session_tests id s.now) }
{
    live_fits(s, id) && others_fit(s, None, None)
}

// 8: the voice beside the session, and its players.
fn voice_fits(s: &Session, v: &SampleVoice) -> bool
    ensures { result ≡ every (voice_tests s.now v.now) }
{
    if over_players(&v.players) {
        return false;
    }
    if !rate_fits(v.sample_rate) {
        return false;
    }
    if over_held(s) {
        return false;
    }
    let slots = slots_of(&v.players);
    if !slots_in_order(s, v.voice, slots) {
        return false;
    }
    if region_outside(s, v.program.regions) {
        return false;
    }
    players_fit(&v.players, v.program)
}

// 8, as far as voice and session alone show it.
pub fn well_formed(s: &Session, v: &SampleVoice) -> bool
    ensures { result ≡ well_formed s.now v.now }
{
    session_fits(s, v.voice) && voice_fits(s, v)
}

// 8, what the lent program adds.
#[tactic(auto, unfolding(crate::specs::Tests::program_fits))]
fn program_fits(
    v: &SampleVoice,
    words: &[u32],
    samples: &[u32],
    frames: usize,
    table: usize,
) -> bool
    ensures { result ≡ program_fits v.now words.now samples.now frames table }
{
    program_ok(v.program, words, samples, frames, table) && samples_fit(&v.players, samples)
}

// 8 in full. The four parts of the lent program go singly, as `program_ok` takes them and `samples_fit` takes one.
pub fn state_fits(
    s: &Session,
    v: &SampleVoice,
    words: &[u32],
    samples: &[u32],
    frames: usize,
    table: usize,
) -> bool
    ensures { result ≡ state_fits s.now v.now words.now samples.now frames table }
{
    well_formed(s, v) && program_fits(v, words, samples, frames, table)
}

// 9: sample offset and event serial not above 2^63.
#[tactic(auto, unfolding(crate::specs::Tests::in_time))]
pub fn in_time(offset: u64, serial: u64) -> bool
    ensures { result ≡ in_time offset serial }
{
    offset <= 0x8000_0000_0000_0000 && serial <= 0x8000_0000_0000_0000
}
