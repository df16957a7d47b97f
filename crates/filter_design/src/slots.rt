// A region's filters and equaliser bands for one note at one rate, in the six slots of a player.
ghost use Rattle.std.specs.Prelude.{◌≡◌, ◌++◌, Float, map, take};
ghost use Rattle.filter_design.specs.Slots.{cutoff_of, quality_of, pole_of, designed, filter_shape, band_quality, equalized, band_shape, filter_slot, band_slot, run, slot_at, six_of};

use crate::cookbook::{
    Design, TAU, biquad_bpf_coeffs, biquad_high_shelf_coeffs, biquad_hpf_coeffs,
    biquad_low_shelf_coeffs, biquad_lpf_coeffs, biquad_notch_coeffs, biquad_peaking_coeffs,
};
use elementary::hyperbolic::sinh;
use elementary::power::{exp, pow10};
use elementary::trig::sin;
use exact::cast::u32_to_f32;
use exact::order::{clamp_f32, max_f32, min_f32};
use filter::{Coefficients, FilterShape};
use gain::cents_factor;
use program::region::{EqBand, EqKind, Filter, FilterKind, Region};

const LN_2: f32 = 0.6931472;

// The slots, and how many of them are in use. A player keeps the two so, in the memory that the host hands in, where any count is tested:
// a list whose type says at most six could not hold what has to be refused.
#[derive(Drop)]
pub struct Filters {
    pub slots: [FilterShape; 6],
    pub count: u8,
}

// The note, its velocity and the rate that shapes are made for.
#[derive(Clone, Copy)]
pub struct NoteAt {
    pub note: u8,
    pub vel: u8,
    pub sr: f32,
}

// The cutoff for a note, from 1 Hz up to 20 kHz or just below half the rate.
#[tactic(auto, unfolding(crate::specs::Slots::cutoff_of))]
fn cutoff_of(f: Filter, at: NoteAt) -> f32
    ensures { result ≡ cutoff_of f at.note at.vel at.sr }
{
    let v = u32_to_f32(at.vel as u32) / 127.0;
    let keys = u32_to_f32(at.note as u32) - u32_to_f32(f.keycenter as u32);
    let cutoff = f.cutoff * cents_factor(f.keytrack * keys) * cents_factor(f.veltrack * v);
    max_f32(min_f32(clamp_f32(cutoff, 0.0, 20000.0), 0.499 * at.sr), 1.0)
}

#[tactic(auto, unfolding(crate::specs::Slots::quality_of))]
fn quality_of(resonance: f32) -> f32
    ensures { result ≡ quality_of resonance }
{
    max_f32(pow10(resonance / 20.0), 1e-3)
}

#[tactic(auto, unfolding(crate::specs::Slots::pole_of))]
fn pole_of(freq: f32, sr: f32) -> f32
    ensures { result ≡ pole_of freq sr }
{
    exp(-TAU * freq / sr)
}

fn biquad(c: Coefficients, stages: u8) -> FilterShape
    ensures { result ≡ FilterShape.Biquad c stages }
{
    FilterShape::Biquad { c, stages }
}

// The designs are a match over the kinds, one line each: as a method of the kind that names the design and its stages it would be the
// same thirteen lines, and a second match over the designs.
#[tactic(auto, unfolding(crate::specs::Slots::designed))]
fn designed_shape(kind: FilterKind, d: Design) -> FilterShape
    ensures { result ≡ designed kind d.freq d.q d.gain_db d.sample_rate }
{
    match kind {
        FilterKind::Lpf1p => FilterShape::Lp1 {
            p: pole_of(d.freq, d.sample_rate),
        },
        FilterKind::Hpf1p => FilterShape::Hp1 {
            p: pole_of(d.freq, d.sample_rate),
        },
        FilterKind::Lpf2p => biquad(biquad_lpf_coeffs(d), 1),
        FilterKind::Hpf2p => biquad(biquad_hpf_coeffs(d), 1),
        FilterKind::Bpf2p => biquad(biquad_bpf_coeffs(d), 1),
        FilterKind::Brf2p => biquad(biquad_notch_coeffs(d), 1),
        FilterKind::Lpf4p => biquad(biquad_lpf_coeffs(d), 2),
        FilterKind::Hpf4p => biquad(biquad_hpf_coeffs(d), 2),
        FilterKind::Lpf6p => biquad(biquad_lpf_coeffs(d), 3),
        FilterKind::Hpf6p => biquad(biquad_hpf_coeffs(d), 3),
        FilterKind::Peq => biquad(biquad_peaking_coeffs(d), 1),
        FilterKind::Lsh => biquad(biquad_low_shelf_coeffs(d), 1),
        FilterKind::Hsh => biquad(biquad_high_shelf_coeffs(d), 1),
    }
}

// One filter's shape for a note.
#[tactic(auto, unfolding(crate::specs::Slots::filter_shape))]
pub fn filter_shape(f: Filter, at: NoteAt) -> FilterShape
    ensures { result ≡ filter_shape f at.note at.vel at.sr }
{
    let design = Design {
        freq: cutoff_of(f, at),
        q: quality_of(f.resonance),
        gain_db: f.gain,
        sample_rate: at.sr,
    };
    designed_shape(f.kind, design)
}

// The quality of a band bw octaves wide around w0.
#[tactic(auto, unfolding(crate::specs::Slots::band_quality))]
fn band_quality(bw: f32, w0: f32) -> f32
    ensures { result ≡ band_quality bw w0 }
{
    1.0 / (2.0 * sinh(0.5 * LN_2 * max_f32(bw, 1e-3) * w0 / sin(w0)))
}

// The filter that a band of a kind is.
#[tactic(auto, unfolding(crate::specs::Slots::designed, crate::specs::Slots::equalized))]
fn filter_kind(kind: EqKind) -> FilterKind
    ensures { (freq q gain rate : Float) → designed result freq q gain rate ≡ equalized kind freq q gain rate }
{
    match kind {
        EqKind::Peak => FilterKind::Peq,
        EqKind::LowShelf => FilterKind::Lsh,
        EqKind::HighShelf => FilterKind::Hsh,
    }
}

// One equaliser band's shape for a note, of which it takes the velocity. It shares the design with `filter_shape`, and no more: a band's frequency, gain and quality
// are worked out from other fields by other formulas, so that one function for both would branch at each of its lines.
#[tactic(auto, unfolding(crate::specs::Slots::band_shape, crate::specs::Slots::band_frequency))]
pub fn band_shape(b: EqBand, at: NoteAt) -> FilterShape
    ensures { result ≡ band_shape b at.vel at.sr }
{
    let v = u32_to_f32(at.vel as u32) / 127.0;
    let freq = clamp_f32(b.freq + b.vel2freq * v, 1.0, 0.499 * at.sr);
    let design = Design {
        freq,
        q: band_quality(b.bw, TAU * freq / at.sr),
        gain_db: b.gain + b.vel2gain * v,
        sample_rate: at.sr,
    };
    designed_shape(filter_kind(b.kind), design)
}

// The places that a count takes in.
fn in_use<T>(places: &[T], count: u32) -> &[T]
    ensures { result.now ≡ take count places.now }
{
    let n = places.len().min(count as usize);
    &places[..n]
}

// Slot k: the filters, then the bands, then nothing. By k and not as a chain of two maps: what the loop has filled is said of k alone, where
// a chain's state, in which of the two it stands and how far, would have to be said too.
fn slot_at(filters: &[Filter], bands: &[EqBand], k: usize, at: NoteAt) -> FilterShape
    ensures { result ≡ slot_at (map (filter_slot at.note at.vel at.sr) filters.now ++ map (band_slot at.vel at.sr) bands.now) k }
{
    if k < filters.len() {
        return filter_shape(filters[k], at);
    }
    let j = k - filters.len();
    if j < bands.len() {
        return band_shape(bands[j], at);
    }
    FilterShape::Off
}

// The filters before the bands, six in all; what is past the sixth is left out.
pub fn build_filters(region: Region, note: u8, vel: u8, sr: f32) -> Filters
    ensures { result ≡ six_of (run region note vel sr) }
{
    let filters = in_use(&region.filters, region.filter_count);
    let bands = in_use(&region.eq, region.eq_count);
    let at = NoteAt { note, vel, sr };
    let mut slots = [FilterShape::Off; 6];
    for (k, slot) in slots.iter_mut().enumerate() {
        *slot = slot_at(filters, bands, k, at);
    }
    let count = (filters.len() + bands.len()).min(6) as u8;
    Filters { slots, count }
}
