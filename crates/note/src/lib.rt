// A note of a voice: what its rising gate's inputs make it, and which regions it starts and which its release. Choosing stands apart
// from starting: it reads the program and the session, and changes nothing but the sequences.
#![tactic(auto)]

ghost use Rattle.std.specs.Prelude.{◌≡◌};
ghost use Rattle.note.specs.Choice.{chosen_list, add_region};
ghost use Rattle.note.specs.Note.{note_of, key_of, velocity_of, kernel_of, note_state};

pub mod choice;

use elementary::log::log2;
use exact::cast::f32_to_u8;
use exact::integral::round_f32;
use exact::order::{bits_f32, clamp_f32, is_finite_f32};
use interp::Interp;
use session::used;

// The note that a voice plays. What a player's start reads of it stands in `player::start::Note` again: with that as a part, choosing would
// stand on players, envelopes and filters.
#[derive(Clone, Copy)]
pub struct NoteState {
    pub note: u8,
    pub vel: u8,
    pub note_f: f32,
    pub on_time: u64,
    pub seed: u32,
    pub interp: Interp,
    // The note's release regions were fired by a choke.
    pub choke_released: bool,
}

// The inputs on the frame of a rising gate, and its time.
#[derive(Clone, Copy)]
pub struct Strike {
    pub freq: f32,
    pub vel: f32,
    pub seed: f32,
    pub quality: Option<f32>,
    pub at: u64,
}

// Regions of the program, in order: an array and its count, as memory is fixed, and `Copy`, which the kit's list is not, for the folds.
#[derive(Clone, Copy)]
pub struct Chosen {
    pub regions: [u32; 256],
    pub count: usize,
}

const NONE_CHOSEN: Chosen = Chosen {
    regions: [0; 256],
    count: 0,
};

impl Chosen {
    // The regions in use, in order.
    pub fn as_slice(&self) -> &[u32]
        ensures { result.now ≡ chosen_list self.now }
    {
        &self.regions[..used::<256>(self.count)]
    }

    // One region more, where there is room.
    #[tactic(auto, unfolding(crate::specs::Choice::add_region))]
    fn with(mut self, i: u32) -> Chosen
        ensures { result ≡ add_region i self }
    {
        if self.count < 256 {
            self.regions[self.count] = i;
            self.count += 1;
        }
        self
    }
}

// The note of a frequency, or `other`.
#[tactic(auto, unfolding(crate::specs::Note::note_of))]
pub fn note_of(freq: f32, other: f32) -> f32
    ensures { result ≡ note_of freq other }
{
    if freq > 0.0 && is_finite_f32(freq) {
        69.0 + 12.0 * log2(freq / 440.0)
    } else {
        other
    }
}

// The nearest whole number, from 0 to 127.
#[tactic(auto, unfolding(crate::specs::Note::key_of))]
fn key_of(x: f32) -> u8
    ensures { result ≡ key_of x }
{
    f32_to_u8(clamp_f32(round_f32(x), 0.0, 127.0))
}

// The velocity of 127; one that is not finite is 100.
#[tactic(auto, unfolding(crate::specs::Note::velocity_of))]
fn velocity_of(v: f32) -> u8
    ensures { result ≡ velocity_of v }
{
    if is_finite_f32(v) {
        key_of(v * 127.0)
    } else {
        100
    }
}

// The kernel that the quality input, where there is one, names.
#[tactic(auto, unfolding(crate::specs::Note::kernel_of))]
fn kernel_of(quality: Option<f32>) -> Interp
    ensures { result ≡ kernel_of quality }
{
    quality.map_or(Interp::Sinc, |q| Interp::from_quality(q, Interp::Sinc))
}

// The note of a rising gate.
#[tactic(auto, unfolding(crate::specs::Note::note_state))]
pub fn note_state(k: Strike) -> NoteState
    ensures { result ≡ note_state k }
{
    let note_f = note_of(k.freq, 60.0);
    NoteState {
        note: key_of(note_f),
        vel: velocity_of(k.vel),
        note_f,
        on_time: k.at,
        seed: bits_f32(k.seed),
        interp: kernel_of(k.quality),
        choke_released: false,
    }
}
