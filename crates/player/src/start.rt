// A player at its start: a region, a note and a rate.
ghost use Rattle.std.specs.Prelude.{◌≡◌, ◌≤◌, ◌<◌, T};
ghost use Rattle.program.specs.Valid.{loop_in_order};
ghost use Rattle.player.specs.Start.{is_note_on, sample_for, named, width_of, frames_of, rate_of, is_stereo, last_of, fade_frames, loop_at, has_loop, loop_of, drawn_volume, volume_of, gain_of, is_one_shot, hot_at, cold_at, started_player};

use super::pitch::set_pitch;
use super::{Cold, Fade, Hot, LoopRt, Player};
use elementary::power::pow10;
use envelope::{Env, secs_to_samples};
use exact::cast::{f32_to_u32, i32_to_f32, u32_to_f32};
use exact::format::widen;
use exact::integral::round_f32;
use exact::random::rand01;
use filter_design::slots::build_filters;
use gain::{Matrix, pan_matrix, velocity_gain, xf_gain};
use interp::Interp;
use interp::sinc::SincSpan;
use program::region::{
    Choke, Envelope, Level, LoopMode, LoopPoints, Pitch, Playback, Region, SILENCE, Trigger,
};
use program::sample::Sample;

// What a start reads of its note, and of its event.
#[derive(Clone, Copy)]
pub struct Note {
    pub note: u8,
    pub vel: u8,
    pub note_f: f32,
    pub seed: u32,
    pub interp: Interp,
}

// What starts a player: a note-on, or a note's end.
#[derive(Clone, Copy)]
pub enum Cause {
    NoteOn,
    Release,
}

impl Cause {
    fn is_note_on(self) -> bool
        ensures { result ≡ is_note_on self }
    {
        matches!(self, Cause::NoteOn)
    }
}

#[derive(Clone, Copy)]
pub struct Event {
    pub slot: u32,
    pub region: u32,
    pub serial: u64,
    pub cause: Cause,
    // For how long the note was held. It is no part of the cause: a region that fires on a release has its decay from it at a note-on too.
    pub held_secs: f32,
}

// The sample of a region, if it has one.
fn sample_for(index: Option<u32>, s: Sample) -> Option<Sample>
    ensures { result ≡ sample_for index s }
{
    index.map(|_| s)
}

// The number that a player keeps: 4,294,967,295 names no sample.
fn named(index: Option<u32>) -> Option<u32>
    ensures { result ≡ named index }
{
    index.filter(|i| *i != SILENCE)
}

// Silence counts as 4,294,967,295 frames at the engine's rate.
fn frames_of(pcm: Option<Sample>) -> u32
    ensures { result ≡ frames_of pcm }
{
    pcm.map_or(0xffff_ffff, |s| s.frames)
}

fn rate_of(pcm: Option<Sample>, sr: f32) -> f32
    ensures { result ≡ rate_of pcm sr }
{
    pcm.map_or(sr, |s| s.rate)
}

fn is_stereo(pcm: Option<Sample>) -> bool
    ensures { result ≡ is_stereo pcm }
{
    pcm.is_some_and(|s| s.channels == 2)
}

// The frame at which the sample ends.
#[tactic(auto, unfolding(crate::specs::Start::last_of))]
fn last_of(end: Option<u32>, frames: u32) -> u32
    ensures { result ≡ last_of end frames }
{
    let top = frames.saturating_sub(1);
    end.map_or(top, |e| e.min(top))
}

// How many frames a loop's fade takes.
#[tactic(auto, unfolding(crate::specs::Start::fade_frames))]
fn fade_frames(rate: f32, start: u32) -> u32
    ensures { result ≡ fade_frames rate start }
{
    f32_to_u32(round_f32(1e-3 * rate)).min(start)
}

#[tactic(auto, unfolding(crate::specs::Start::loop_at, crate::specs::Start::fade_frames))]
pub fn loop_at(start: u32, end: u32, last: u32, rate: f32) -> LoopRt
    requires { (start ≤ end) × (end < 4294967295) }
    ensures { result ≡ loop_at start end last rate }
{
    let end = end.min(last).max(start);
    let frames = fade_frames(rate, start);
    let fade = Fade {
        frames,
        start: end + 1 - frames,
    };
    LoopRt {
        start,
        end,
        size: (end + 1 - start) as f64,
        fade: (frames != 0).then_some(fade),
    }
}

fn has_loop(mode: LoopMode) -> bool
    ensures { result ≡ has_loop mode }
{
    matches!(mode, LoopMode::Continuous | LoopMode::Sustain)
}

// A loop counts only if its end is a frame of the sample. The points may be any, as region_at gives them of any words: so their order
// is asked here, and is no field of theirs.
#[tactic(auto, unfolding(crate::specs::Start::loop_of))]
fn loop_of(
    mode: LoopMode,
    points: Option<LoopPoints>,
    frames: u32,
    rate: f32,
    last: u32,
) -> Option<LoopRt>
    requires { T (loop_in_order points) }
    ensures { result ≡ loop_of mode points frames rate last }
{
    let p = points?;
    if has_loop(mode) && p.end < frames {
        Some(loop_at(p.start, p.end, last, rate))
    } else {
        None
    }
}

// The region's volume with its random part, in decibels.
fn drawn_volume(level: Level, seed: u32, serial: u64, region: u32) -> f32
    ensures { result ≡ drawn_volume level seed serial region }
{
    if level.amp_random_db > 0.0 {
        return level.volume_db
            + level.amp_random_db * rand01(seed, serial, 0x1_0000 + (region as u64));
    }
    level.volume_db
}

// A release is quieter the longer its note was held. The region's trigger decides, as in the Rust, whatever the event. The three
// functions of a start's gain are called once each: of a struct for them each clause would only name the parts again.
#[tactic(auto, unfolding(crate::specs::Start::volume_of))]
fn volume_of(level: Level, trigger: Trigger, note: Note, event: Event) -> f32
    ensures { result ≡ volume_of level trigger note event }
{
    let v = drawn_volume(level, note.seed, event.serial, event.region);
    if trigger.is_release() {
        return v - level.rt_decay_db_per_s * event.held_secs;
    }
    v
}

fn gain_of(level: Level, trigger: Trigger, curve: Option<f32>, note: Note, event: Event) -> f32
    ensures { result ≡ gain_of level trigger curve note event }
{
    let xf = level.xf_vel;
    let v = volume_of(level, trigger, note, event);
    pow10(v / 20.0) * velocity_gain(level.amp_veltrack, curve, note.vel) * xf_gain(xf, note.vel)
}

// A mono sample's width is not asked.
fn width_of(level: Level, pcm: Option<Sample>) -> Option<f32>
    ensures { result ≡ width_of level pcm }
{
    is_stereo(pcm).then_some(level.width)
}

fn is_one_shot(silent: bool, mode: LoopMode) -> bool
    ensures { result ≡ is_one_shot silent mode }
{
    silent && matches!(mode, LoopMode::OneShot)
}

fn hot_at(play: Playback, ampeg: Envelope, silent: bool, sr: f32) -> Hot
    ensures { result ≡ hot_at play ampeg silent sr }
{
    let mode = play.loop_mode;
    let delay = secs_to_samples(play.delay_s, sr);
    let one = is_one_shot(silent, mode);
    let env = Env::new(ampeg, delay, sr, one);
    Hot {
        env,
        pos: play.offset_frames as f64,
        data_delay: delay,
        data_ended: false,
        offed: false,
    }
}

// What frames read, before the note sets the step.
fn cold_at(
    pitch: Pitch,
    play: Playback,
    choke: Choke,
    release: f32,
    pcm: Option<Sample>,
    interp: Interp,
    gain: f32,
    matrix: Matrix,
    n_filters: u8,
    sr: f32,
) -> Cold
    requires { T (loop_in_order play.loop_points) }
    ensures { result ≡ cold_at pitch play choke release pcm interp gain matrix n_filters sr }
{
    let mode = play.loop_mode;
    let points = play.loop_points;
    let end = play.end_frames;
    let off_mode = choke.off_mode;
    let frames = frames_of(pcm);
    let pcm_rate = rate_of(pcm, sr);
    let last = last_of(end, frames);
    let lp = loop_of(mode, points, frames, pcm_rate, last);
    let span = SincSpan::for_step(1.0);
    let transposed = i32_to_f32(pitch.transpose);
    let keycenter = u32_to_f32(pitch.pitch_keycenter as u32);
    let file_rate = widen(pcm_rate);
    let rate = widen(sr);
    Cold {
        step: 0.0,
        span,
        last,
        interp,
        stereo: is_stereo(pcm),
        silent: pcm.is_none(),
        lp,
        loop_mode: mode,
        n_filters,
        gain,
        matrix,
        rate_ratio: file_rate / rate,
        base_cents: pitch.tune_cents + 100.0 * transposed,
        keytrack: pitch.pitch_keytrack,
        keycenter,
        bend_up: pitch.bend_up_cents,
        bend_down: pitch.bend_down_cents,
        off_mode,
        off_time: choke.off_time,
        release_time: release,
    }
}

// A player of a region at a note's event: `curve` is what the region's velocity curve gives at the note's velocity.
pub fn start(
    region: Region,
    sample: Sample,
    curve: Option<f32>,
    note: Note,
    event: Event,
    sr: f32,
) -> Player
    requires { T (loop_in_order region.play.loop_points) }
    ensures { result ≡ started_player region sample curve note event sr }
{
    let play = region.play;
    let pitch = region.pitch;
    let level = region.level;
    let choke = region.choke;
    let chosen = region.chosen;
    let ampeg = region.ampeg;
    let trigger = chosen.trigger;
    let interp = note.interp;
    let f = build_filters(region, note.note, note.vel, sr);
    let slots = f.slots;
    let pcm = sample_for(region.sample, sample);
    let hot = hot_at(play, ampeg, pcm.is_none(), sr);
    let gain = gain_of(level, trigger, curve, note, event);
    let matrix = pan_matrix(level.pan, width_of(level, pcm));
    let base = cold_at(
        pitch,
        play,
        choke,
        ampeg.release,
        pcm,
        interp,
        gain,
        matrix,
        f.count,
        sr,
    );
    let cold = set_pitch(base, note.note_f, 0.0);
    let states = [0.0f32; 72];
    Player {
        hot,
        cold,
        slots,
        states,
        slot: event.slot,
        region: event.region,
        sample: named(region.sample),
        on_note: event.cause.is_note_on(),
    }
}
