// Whether two voices are the same, bit for bit: every place of every array, in use or not. A session holds no float, so that its `==` says
// as much.
use envelope::Env;
use events::SampleVoice;
use exact::order::bits_f32;
use filter::{Coefficients, FilterShape};
use gain::Matrix;
use interp::sinc::SincSpan;
use note::NoteState;
use player::{Cold, Hot, LoopRt, Player};
use players::Players;
use std::num::f64_to_bits_with_nan;

// Not `==`, which takes the two zeros for one and a NaN for none. Here every NaN is one.
pub trait SameBits {
    fn same_bits(&self, other: &Self) -> bool;
}

impl SameBits for f32 {
    fn same_bits(&self, other: &f32) -> bool {
        bits_f32(*self) == bits_f32(*other)
    }
}

impl SameBits for f64 {
    fn same_bits(&self, other: &f64) -> bool {
        f64_to_bits_with_nan(*self) == f64_to_bits_with_nan(*other)
    }
}

impl<T: SameBits> SameBits for Option<T> {
    fn same_bits(&self, other: &Option<T>) -> bool {
        match (self, other) {
            (None, None) => true,
            (Some(a), Some(b)) => a.same_bits(b),
            _ => false,
        }
    }
}

impl<T: SameBits, const N: usize> SameBits for [T; N] {
    fn same_bits(&self, other: &[T; N]) -> bool {
        self.iter().zip(other).all(|(a, b)| a.same_bits(b))
    }
}

// ---- a player

impl SameBits for Env {
    fn same_bits(&self, other: &Env) -> bool {
        self.state == other.state
            && self.delay == other.delay
            && self.hold == other.hold
            && self.free_running == other.free_running
            && self.value.same_bits(&other.value)
            && self.start.same_bits(&other.start)
            && self.attack_step.same_bits(&other.attack_step)
            && self.decay_rate.same_bits(&other.decay_rate)
            && self.sustain.same_bits(&other.sustain)
            && self.release_rate.same_bits(&other.release_rate)
            && self.transition_delta.same_bits(&other.transition_delta)
            && self.sample_rate.same_bits(&other.sample_rate)
    }
}

impl SameBits for Hot {
    fn same_bits(&self, other: &Hot) -> bool {
        self.pos.same_bits(&other.pos)
            && self.data_delay == other.data_delay
            && self.data_ended == other.data_ended
            && self.offed == other.offed
            && self.env.same_bits(&other.env)
    }
}

impl SameBits for LoopRt {
    fn same_bits(&self, other: &LoopRt) -> bool {
        self.start == other.start
            && self.end == other.end
            && self.fade == other.fade
            && self.size.same_bits(&other.size)
    }
}

impl SameBits for SincSpan {
    fn same_bits(&self, other: &SincSpan) -> bool {
        self.half == other.half && self.fc.same_bits(&other.fc)
    }
}

impl SameBits for Matrix {
    fn same_bits(&self, other: &Matrix) -> bool {
        self.ll.same_bits(&other.ll)
            && self.rl.same_bits(&other.rl)
            && self.lr.same_bits(&other.lr)
            && self.rr.same_bits(&other.rr)
    }
}

fn same_reading(a: &Cold, b: &Cold) -> bool {
    a.step.same_bits(&b.step)
        && a.span.same_bits(&b.span)
        && a.last == b.last
        && a.interp == b.interp
        && a.stereo == b.stereo
        && a.silent == b.silent
        && a.lp.same_bits(&b.lp)
        && a.loop_mode == b.loop_mode
}

fn same_sound(a: &Cold, b: &Cold) -> bool {
    a.n_filters == b.n_filters
        && a.gain.same_bits(&b.gain)
        && a.matrix.same_bits(&b.matrix)
        && a.off_mode == b.off_mode
        && a.off_time.same_bits(&b.off_time)
        && a.release_time.same_bits(&b.release_time)
}

fn same_pitch(a: &Cold, b: &Cold) -> bool {
    a.rate_ratio.same_bits(&b.rate_ratio)
        && a.base_cents.same_bits(&b.base_cents)
        && a.keytrack.same_bits(&b.keytrack)
        && a.keycenter.same_bits(&b.keycenter)
        && a.bend_up.same_bits(&b.bend_up)
        && a.bend_down.same_bits(&b.bend_down)
}

impl SameBits for Cold {
    fn same_bits(&self, other: &Cold) -> bool {
        same_reading(self, other) && same_sound(self, other) && same_pitch(self, other)
    }
}

impl SameBits for Coefficients {
    fn same_bits(&self, other: &Coefficients) -> bool {
        self.b0.same_bits(&other.b0)
            && self.b1.same_bits(&other.b1)
            && self.b2.same_bits(&other.b2)
            && self.a1.same_bits(&other.a1)
            && self.a2.same_bits(&other.a2)
    }
}

impl SameBits for FilterShape {
    fn same_bits(&self, other: &FilterShape) -> bool {
        match (self, other) {
            (FilterShape::Off, FilterShape::Off) => true,
            (FilterShape::Lp1 { p }, FilterShape::Lp1 { p: q }) => p.same_bits(q),
            (FilterShape::Hp1 { p }, FilterShape::Hp1 { p: q }) => p.same_bits(q),
            (FilterShape::Biquad { c, stages }, FilterShape::Biquad { c: d, stages: n }) => {
                c.same_bits(d) && stages == n
            }
            _ => false,
        }
    }
}

impl SameBits for Player {
    fn same_bits(&self, other: &Player) -> bool {
        self.slot == other.slot
            && self.region == other.region
            && self.sample == other.sample
            && self.on_note == other.on_note
            && self.hot.same_bits(&other.hot)
            && self.cold.same_bits(&other.cold)
            && self.slots.same_bits(&other.slots)
            && self.states.same_bits(&other.states)
    }
}

// ---- a voice

impl SameBits for Players {
    fn same_bits(&self, other: &Players) -> bool {
        self.count == other.count && self.players.same_bits(&other.players)
    }
}

impl SameBits for NoteState {
    fn same_bits(&self, other: &NoteState) -> bool {
        self.note == other.note
            && self.vel == other.vel
            && self.on_time == other.on_time
            && self.seed == other.seed
            && self.choke_released == other.choke_released
            && self.interp == other.interp
            && self.note_f.same_bits(&other.note_f)
    }
}

impl SameBits for SampleVoice {
    fn same_bits(&self, other: &SampleVoice) -> bool {
        self.voice == other.voice
            && self.gate_prev == other.gate_prev
            && self.gate_held == other.gate_held
            && self.started == other.started
            && self.next_slot == other.next_slot
            && self.dropped == other.dropped
            && self.program == other.program
            && self.sample_rate.same_bits(&other.sample_rate)
            && self.note.same_bits(&other.note)
            && self.players.same_bits(&other.players)
    }
}
