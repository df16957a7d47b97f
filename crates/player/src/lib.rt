// A sounding region: where it stands in its sample, its envelope, its filters, and what it adds to a block's two outputs.
// `Hot` is what a frame changes, `Cold` what frames only read.
#![tactic(auto)]

pub mod pitch;
pub mod start;

use envelope::Env;
use filter::FilterShape;
use gain::Matrix;
use interp::Interp;
use interp::sinc::SincSpan;
use program::region::{LoopMode, OffMode};

// The fade into a loop's start: how many frames it takes, and the frame where they begin.
#[derive(Clone, Copy, PartialEq, Eq)]
pub struct Fade {
    pub frames: u32,
    pub start: u32,
}

// A loop in frames of the sample, its last frame included. The fade takes its last frames.
#[derive(Clone, Copy)]
pub struct LoopRt {
    pub start: u32,
    pub end: u32,
    pub size: f64,
    pub fade: Option<Fade>,
}

#[derive(Clone, Copy)]
pub struct Hot {
    pub env: Env,
    pub pos: f64,
    pub data_delay: i64,
    pub data_ended: bool,
    pub offed: bool,
}

#[derive(Clone, Copy)]
pub struct Cold {
    pub step: f64,
    pub span: SincSpan,
    // At or past this frame the sample has ended.
    pub last: u32,
    pub interp: Interp,
    pub stereo: bool,
    // There is no sample. A flag, because the host hands a player in with `last` and `lp`, and both are tested of a silent one too.
    pub silent: bool,
    pub lp: Option<LoopRt>,
    pub loop_mode: LoopMode,
    // How many of the player's slots are in use. It stands here and they do not, so that a new pitch copies no coefficients.
    pub n_filters: u8,
    pub gain: f32,
    pub matrix: Matrix,
    // File rate / engine rate.
    pub rate_ratio: f64,
    // The region's pitch offset in cents, without the note and the bend.
    pub base_cents: f32,
    pub keytrack: f32,
    pub keycenter: f32,
    pub bend_up: f32,
    pub bend_down: f32,
    pub off_mode: OffMode,
    pub off_time: f32,
    pub release_time: f32,
}

#[derive(Clone, Copy)]
pub struct Player {
    pub hot: Hot,
    pub cold: Cold,
    pub slots: [FilterShape; 6],
    // Twelve places a slot, as the filters' `chain` takes them.
    pub states: [f32; 72],
    pub slot: u32,
    pub region: u32,
    pub sample: Option<u32>,
    pub on_note: bool,
}
