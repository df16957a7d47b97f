// A region's 392 words and the region that they mean. Names and order of the enums are those of the Rust's `program.rs`.
ghost use Rattle.std.specs.Prelude.{◌≡◌, ◌+◌, ◌≤◌, ◌<◌, get_or};
ghost use Rattle.program.specs.Region.{word, loop_points_of, seq_of, rand_of, float_of, signed_of, byte_of, maybe_of, sample_named, is_release, xf_curve_of, crossfade_of, envelope_of, filter_of, filters_of, band_of, bands_of, window_of, pitch_of, playback_of, level_of, choice_of, choke_of, region_of, words_of, region_at};

use exact::order::from_bits_f32;
use std::array;

// Words of one region.
pub const REGION_WORDS: usize = 392;
// The word in a sample's place of a region that plays nothing.
pub const SILENCE: u32 = 0xffff_ffff;

#[derive(Clone, Copy, PartialEq, Eq)]
pub enum LoopMode {
    NoLoop,
    OneShot,
    Continuous,
    Sustain,
}

#[derive(Clone, Copy)]
pub enum LoopSource {
    None,
    Sfz,
    File,
    Whole,
}

#[derive(Clone, Copy)]
pub enum Trigger {
    Attack,
    Release,
    ReleaseKey,
    First,
    Legato,
}

impl Trigger {
    // Whether the region starts when the note ends.
    pub fn is_release(self) -> bool
        ensures { result ≡ is_release self }
    {
        matches!(self, Trigger::Release | Trigger::ReleaseKey)
    }
}

#[derive(Clone, Copy, PartialEq, Eq)]
pub enum OffMode {
    Fast,
    Normal,
    Time,
}

#[derive(Clone, Copy)]
pub enum FilterKind {
    Lpf1p,
    Hpf1p,
    Lpf2p,
    Hpf2p,
    Bpf2p,
    Brf2p,
    Lpf4p,
    Hpf4p,
    Lpf6p,
    Hpf6p,
    Peq,
    Lsh,
    Hsh,
}

#[derive(Clone, Copy)]
pub enum EqKind {
    Peak,
    LowShelf,
    HighShelf,
}

// The first and the last frame of a loop.
#[derive(Clone, Copy)]
pub struct LoopPoints {
    pub start: u32,
    pub end: u32,
}

// The place of a region among those that start in turn, counted from 1.
#[derive(Clone, Copy)]
pub struct Seq {
    pub length: u32,
    pub position: u32,
}

// The draws that start a region: from `lo` up to, and without, `hi`.
#[derive(Clone, Copy)]
pub struct Rand {
    pub lo: f32,
    pub hi: f32,
}

// `xf_velcurve`.
#[derive(Clone, Copy)]
pub enum XfCurve {
    Gain,
    Power,
}

#[derive(Clone, Copy)]
pub struct VelCrossfade {
    pub in_lo: f32,
    pub in_hi: f32,
    pub out_lo: f32,
    pub out_hi: f32,
    pub curve: XfCurve,
}

#[derive(Clone, Copy)]
pub struct Envelope {
    pub delay: f32,
    pub attack: f32,
    pub hold: f32,
    pub decay: f32,
    pub sustain: f32,
    pub release: f32,
    pub start: f32,
}

#[derive(Clone, Copy)]
pub struct Filter {
    pub kind: FilterKind,
    pub cutoff: f32,
    pub resonance: f32,
    pub keytrack: f32,
    pub keycenter: u8,
    pub veltrack: f32,
    pub gain: f32,
}

#[derive(Clone, Copy)]
pub struct EqBand {
    pub kind: EqKind,
    pub freq: f32,
    pub bw: f32,
    pub gain: f32,
    pub vel2freq: f32,
    pub vel2gain: f32,
}

// Key and velocity windows, bounds included.
#[derive(Clone, Copy)]
pub struct Window {
    pub lokey: u8,
    pub hikey: u8,
    pub lovel: u8,
    pub hivel: u8,
}

// Cents per key, cents and keys.
#[derive(Clone, Copy)]
pub struct Pitch {
    pub pitch_keycenter: u8,
    pub pitch_keytrack: f32,
    pub tune_cents: f32,
    pub transpose: i32,
    pub bend_up_cents: f32,
    pub bend_down_cents: f32,
}

// Which frames are played, and after which delay in seconds.
#[derive(Clone, Copy)]
pub struct Playback {
    pub offset_frames: u32,
    pub end_frames: Option<u32>,
    pub loop_mode: LoopMode,
    pub loop_source: LoopSource,
    pub loop_points: Option<LoopPoints>,
    pub delay_s: f32,
}

// How loud and where: decibels and percent. The velocity points stay in the words, of which `velcurve` reads two runs at one note-on: a slice
// of them would be two, and give `Level` and `Region` a lifetime.
#[derive(Clone, Copy)]
pub struct Level {
    pub volume_db: f32,
    pub amp_random_db: f32,
    pub pan: f32,
    pub width: f32,
    pub amp_veltrack: f32,
    pub velcurve_count: u32,
    pub xf_vel: Option<VelCrossfade>,
    pub rt_decay_db_per_s: f32,
}

// When a note starts the region.
#[derive(Clone, Copy)]
pub struct Choice {
    pub trigger: Trigger,
    pub seq: Option<Seq>,
    pub rand: Option<Rand>,
}

// What marks and what it marks.
#[derive(Clone, Copy)]
pub struct Choke {
    pub group: i32,
    pub off_by: Option<i32>,
    pub off_mode: OffMode,
    pub off_time: f32,
    pub note_polyphony: Option<u32>,
    pub polyphony: Option<u32>,
}

// The Rust's `Region`, its fields in groups. A region without a sample plays nothing. A `Vec` is a count and six places, as the words have
// them, for there is no heap: a list type of both would be packed here at each start and unpacked by its one reader, who takes the count's
// first of the places. The ten conversions are functions by name: ten `impl From`s would hold the same bodies, and `r.into()` beside each
// field would not say of what.
#[derive(Clone, Copy)]
pub struct Region {
    pub sample: Option<u32>,
    pub window: Window,
    pub pitch: Pitch,
    pub play: Playback,
    pub level: Level,
    pub chosen: Choice,
    pub choke: Choke,
    pub ampeg: Envelope,
    pub filter_count: u32,
    pub filters: [Filter; 6],
    pub eq_count: u32,
    pub eq: [EqBand; 6],
}

// The single with these bits; every NaN pattern is the one NaN.
pub fn float_of(w: u32) -> f32
    ensures { result ≡ float_of w }
{
    from_bits_f32(w)
}

// Two's complement.
pub fn signed_of(w: u32) -> i32
    ensures { result ≡ signed_of w }
{
    w.cast_signed()
}

// A word above 255 counts as 255, which no key and no velocity may be.
pub fn byte_of(w: u32) -> u8
    ensures { result ≡ byte_of w }
{
    w.min(255) as u8
}

// An enum's word is its place in the Rust's declaration, which is the order here; any other word means the first.
const LOOP_MODES: [LoopMode; 4] = [
    LoopMode::NoLoop,
    LoopMode::OneShot,
    LoopMode::Continuous,
    LoopMode::Sustain,
];

const LOOP_SOURCES: [LoopSource; 4] = [
    LoopSource::None,
    LoopSource::Sfz,
    LoopSource::File,
    LoopSource::Whole,
];

const TRIGGERS: [Trigger; 5] = [
    Trigger::Attack,
    Trigger::Release,
    Trigger::ReleaseKey,
    Trigger::First,
    Trigger::Legato,
];

const OFF_MODES: [OffMode; 3] = [OffMode::Fast, OffMode::Normal, OffMode::Time];

const FILTER_KINDS: [FilterKind; 13] = [
    FilterKind::Lpf1p,
    FilterKind::Hpf1p,
    FilterKind::Lpf2p,
    FilterKind::Hpf2p,
    FilterKind::Bpf2p,
    FilterKind::Brf2p,
    FilterKind::Lpf4p,
    FilterKind::Hpf4p,
    FilterKind::Lpf6p,
    FilterKind::Hpf6p,
    FilterKind::Peq,
    FilterKind::Lsh,
    FilterKind::Hsh,
];

const EQ_KINDS: [EqKind; 3] = [EqKind::Peak, EqKind::LowShelf, EqKind::HighShelf];

fn named<T: Copy>(names: &[T], w: u32, first: T) -> T
    ensures { result ≡ get_or names.now w first }
{
    names.get(w as usize).copied().unwrap_or(first)
}

// A value with a presence word before it: 0 is none, anything else is the value.
fn maybe_of<T: Drop>(present: u32, value: T) -> Option<T>
    ensures { result ≡ maybe_of present value }
{
    (present != 0).then_some(value)
}

// The sample that a region's first word names.
pub(crate) fn sample_named(w: u32) -> Option<u32>
    ensures { result ≡ sample_named w }
{
    (w != SILENCE).then_some(w)
}

fn xf_curve_of(w: u32) -> XfCurve
    ensures { result ≡ xf_curve_of w }
{
    if w != 0 {
        XfCurve::Gain
    } else {
        XfCurve::Power
    }
}

#[tactic(auto, unfolding(crate::specs::Region::crossfade_of))]
pub(crate) fn crossfade_of(r: &[u32; REGION_WORDS]) -> Option<VelCrossfade>
    ensures { result ≡ crossfade_of r.now }
{
    let x = VelCrossfade {
        in_lo: float_of(r[34]),
        in_hi: float_of(r[35]),
        out_lo: float_of(r[36]),
        out_hi: float_of(r[37]),
        curve: xf_curve_of(r[38]),
    };
    maybe_of(r[33], x)
}

#[tactic(auto, unfolding(crate::specs::Region::envelope_of))]
fn envelope_of(r: &[u32; REGION_WORDS]) -> Envelope
    ensures { result ≡ envelope_of r.now }
{
    Envelope {
        delay: float_of(r[43]),
        attack: float_of(r[44]),
        hold: float_of(r[45]),
        decay: float_of(r[46]),
        sustain: float_of(r[50]),
        release: float_of(r[47]),
        start: float_of(r[51]),
    }
}

// The filter whose seven words begin at `at`.
#[tactic(auto, unfolding(crate::specs::Region::filter_of))]
fn filter_of(r: &[u32; REGION_WORDS], at: usize) -> Filter
    requires { at + 7 ≤ 392 }
    ensures { result ≡ filter_of r.now at }
{
    Filter {
        kind: named(&FILTER_KINDS, r[at], FilterKind::Lpf1p),
        cutoff: float_of(r[at + 2]),
        resonance: float_of(r[at + 3]),
        keytrack: float_of(r[at + 4]),
        keycenter: byte_of(r[at + 1]),
        veltrack: float_of(r[at + 5]),
        gain: float_of(r[at + 6]),
    }
}

#[tactic(auto, unfolding(crate::specs::Region::filters_of))]
fn filters_of(r: &[u32; REGION_WORDS]) -> [Filter; 6]
    ensures { result ≡ filters_of r.now }
{
    array::from_fn(|k| filter_of(r, 58 + 7 * k))
}

// The equaliser band whose six words begin at `at`.
#[tactic(auto, unfolding(crate::specs::Region::band_of))]
fn band_of(r: &[u32; REGION_WORDS], at: usize) -> EqBand
    requires { at + 6 ≤ 392 }
    ensures { result ≡ band_of r.now at }
{
    EqBand {
        kind: named(&EQ_KINDS, r[at], EqKind::Peak),
        freq: float_of(r[at + 1]),
        bw: float_of(r[at + 2]),
        gain: float_of(r[at + 3]),
        vel2freq: float_of(r[at + 4]),
        vel2gain: float_of(r[at + 5]),
    }
}

#[tactic(auto, unfolding(crate::specs::Region::bands_of))]
fn bands_of(r: &[u32; REGION_WORDS]) -> [EqBand; 6]
    ensures { result ≡ bands_of r.now }
{
    array::from_fn(|k| band_of(r, 100 + 6 * k))
}

#[tactic(auto, unfolding(crate::specs::Region::window_of))]
pub(crate) fn window_of(r: &[u32; REGION_WORDS]) -> Window
    ensures { result ≡ window_of r.now }
{
    Window {
        lokey: byte_of(r[1]),
        hikey: byte_of(r[2]),
        lovel: byte_of(r[3]),
        hivel: byte_of(r[4]),
    }
}

#[tactic(auto, unfolding(crate::specs::Region::pitch_of))]
fn pitch_of(r: &[u32; REGION_WORDS]) -> Pitch
    ensures { result ≡ pitch_of r.now }
{
    Pitch {
        pitch_keycenter: byte_of(r[5]),
        pitch_keytrack: float_of(r[39]),
        tune_cents: float_of(r[40]),
        transpose: signed_of(r[6]),
        bend_up_cents: float_of(r[41]),
        bend_down_cents: float_of(r[42]),
    }
}

// A word's place stands once, beside its field, as in docs/PROGRAM.md: a name for it would say the field again.
pub(crate) fn loop_points_of(r: &[u32; REGION_WORDS]) -> Option<LoopPoints>
    ensures { result ≡ loop_points_of (word r.now 12) (word r.now 13) (word r.now 14) }
{
    let points = LoopPoints {
        start: r[13],
        end: r[14],
    };
    maybe_of(r[12], points)
}

#[tactic(auto, unfolding(crate::specs::Region::playback_of))]
fn playback_of(r: &[u32; REGION_WORDS]) -> Playback
    ensures { result ≡ playback_of r.now }
{
    Playback {
        offset_frames: r[7],
        end_frames: maybe_of(r[8], r[9]),
        loop_mode: named(&LOOP_MODES, r[10], LoopMode::NoLoop),
        loop_source: named(&LOOP_SOURCES, r[11], LoopSource::None),
        loop_points: loop_points_of(r),
        delay_s: float_of(r[49]),
    }
}

#[tactic(auto, unfolding(crate::specs::Region::level_of))]
fn level_of(r: &[u32; REGION_WORDS]) -> Level
    ensures { result ≡ level_of r.now }
{
    Level {
        volume_db: float_of(r[52]),
        amp_random_db: float_of(r[53]),
        pan: float_of(r[54]),
        width: float_of(r[55]),
        amp_veltrack: float_of(r[56]),
        velcurve_count: r[29],
        xf_vel: crossfade_of(r),
        rt_decay_db_per_s: float_of(r[57]),
    }
}

pub(crate) fn seq_of(r: &[u32; REGION_WORDS]) -> Option<Seq>
    ensures { result ≡ seq_of (word r.now 15) (word r.now 16) (word r.now 17) }
{
    let seq = Seq {
        length: r[16],
        position: r[17],
    };
    maybe_of(r[15], seq)
}

pub(crate) fn rand_of(r: &[u32; REGION_WORDS]) -> Option<Rand>
    ensures { result ≡ rand_of (word r.now 30) (word r.now 31) (word r.now 32) }
{
    let rand = Rand {
        lo: float_of(r[31]),
        hi: float_of(r[32]),
    };
    maybe_of(r[30], rand)
}

#[tactic(auto, unfolding(crate::specs::Region::choice_of))]
pub(crate) fn choice_of(r: &[u32; REGION_WORDS]) -> Choice
    ensures { result ≡ choice_of r.now }
{
    Choice {
        trigger: named(&TRIGGERS, r[22], Trigger::Attack),
        seq: seq_of(r),
        rand: rand_of(r),
    }
}

#[tactic(auto, unfolding(crate::specs::Region::choke_of))]
fn choke_of(r: &[u32; REGION_WORDS]) -> Choke
    ensures { result ≡ choke_of r.now }
{
    Choke {
        group: signed_of(r[18]),
        off_by: maybe_of(r[19], signed_of(r[20])),
        off_mode: named(&OFF_MODES, r[21], OffMode::Fast),
        off_time: float_of(r[48]),
        note_polyphony: maybe_of(r[23], r[24]),
        polyphony: maybe_of(r[25], r[26]),
    }
}

// The region that these words mean.
#[tactic(auto, unfolding(crate::specs::Region::region_of))]
fn region_of(r: &[u32; REGION_WORDS]) -> Region
    ensures { result ≡ region_of r.now }
{
    Region {
        sample: sample_named(r[0]),
        window: window_of(r),
        pitch: pitch_of(r),
        play: playback_of(r),
        level: level_of(r),
        chosen: choice_of(r),
        choke: choke_of(r),
        ampeg: envelope_of(r),
        filter_count: r[27],
        filters: filters_of(r),
        eq_count: r[28],
        eq: bands_of(r),
    }
}

static NO_WORDS: [u32; REGION_WORDS] = [0; REGION_WORDS];

// Region i's words; where there is none, every word of it counts as 0.
pub fn words_of(words: &[u32], i: u32) -> &[u32; REGION_WORDS]
    ensures { result.now ≡ words_of words.now i }
{
    words.as_chunks().0.get(i as usize).unwrap_or(&NO_WORDS)
}

// Region `i` of the program's words.
pub fn region_at(words: &[u32], i: u32) -> Region
    ensures { result ≡ region_at words.now i }
{
    region_of(words_of(words, i))
}
