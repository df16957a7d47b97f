// The amplitude envelope of a sounding region (sfizz's ADSR with delay, hold and start level), stepped once a frame.
#![tactic(auto)]

ghost use Rattle.std.specs.Prelude.{◌≡◌};
ghost use Rattle.envelope.specs.Envelope.{env_at, fadeout_step, done_step, is_released, is_done, delay_left, released, lin_rate, exp_rate, seconds_to_samples, delay_sum, runs_freely, release_timed, started, release_step, sustain_step, decay_step, hold_step, attack_stage_step, delay_step, env_next};

use elementary::power::exp;
use exact::cast::f32_to_i64;
use exact::order::{clamp_f32, max_f32};
use program::region::Envelope;

#[derive(Clone, Copy, PartialEq, Eq)]
pub enum EgState {
    Delay,
    Attack,
    Hold,
    Decay,
    Sustain,
    Release,
    Fadeout,
    Done,
}

#[derive(Clone, Copy)]
pub struct Env {
    pub state: EgState,
    pub value: f32,
    pub start: f32,
    pub delay: i64,
    pub attack_step: f32,
    pub hold: i64,
    pub decay_rate: f32,
    pub sustain: f32,
    pub release_rate: f32,
    pub transition_delta: f32,
    pub free_running: bool,
    pub sample_rate: f32,
}

// A frame's value, and the envelope after it.
#[derive(Drop)]
pub struct EnvStep {
    pub value: f32,
    pub env: Env,
}

impl Env {
    // The same envelope at another state, value and transition. The steps go by this and by a copy that they change: with `..self`, and one
    // function for the five that set the value, a Hermite frame through two biquads took 1.03 of the Rust's time in place of 0.95, where 0.91 is
    // the most it has taken, and a linear one 0.83 in place of 0.78.
    fn at(self, s: EgState, v: f32, d: f32) -> Env
        ensures { result ≡ env_at s v d self }
    {
        Env {
            state: s,
            value: v,
            transition_delta: d,
            ..self
        }
    }

    #[tactic(auto, unfolding(crate::specs::Envelope::done_step))]
    fn done_step(self) -> EnvStep
        ensures { result ≡ done_step self }
    {
        EnvStep {
            value: 0.0,
            env: self,
        }
    }

    #[tactic(auto, unfolding(crate::specs::Envelope::fadeout_step))]
    fn fadeout_step(self) -> EnvStep
        ensures { result ≡ fadeout_step self }
    {
        let v = self.value + self.transition_delta;
        if v > 0.0 {
            let mut e = self;
            e.value = v;
            return EnvStep { value: v, env: e };
        }
        self.at(EgState::Done, 0.0, self.transition_delta)
            .done_step()
    }

    #[tactic(auto, unfolding(crate::specs::Envelope::release_step))]
    fn release_step(self) -> EnvStep
        ensures { result ≡ release_step self }
    {
        let v = self.value * self.release_rate;
        if v > 1e-4 {
            let mut e = self;
            e.value = v;
            return EnvStep { value: v, env: e };
        }
        let d = -max_f32(self.value, 1e-4) / (self.sample_rate * 50e-3);
        self.at(EgState::Fadeout, self.value, d).fadeout_step()
    }

    #[tactic(auto, unfolding(crate::specs::Envelope::sustain_step))]
    fn sustain_step(self) -> EnvStep
        ensures { result ≡ sustain_step self }
    {
        if self.free_running {
            return self
                .at(EgState::Release, self.value, self.transition_delta)
                .release_step();
        }
        if self.value > self.sustain {
            let mut e = self;
            let v = e.value + e.transition_delta;
            e.value = v;
            return EnvStep { value: v, env: e };
        }
        EnvStep {
            value: self.value,
            env: self,
        }
    }

    #[tactic(auto, unfolding(crate::specs::Envelope::decay_step))]
    fn decay_step(self) -> EnvStep
        ensures { result ≡ decay_step self }
    {
        let v = self.value * self.decay_rate;
        if v > self.sustain {
            let mut e = self;
            e.value = v;
            return EnvStep { value: v, env: e };
        }
        let m = max_f32(v, self.sustain);
        let d = (self.sustain - m) / (self.sample_rate * 50e-3);
        self.at(EgState::Sustain, m, d).sustain_step()
    }

    #[tactic(auto, unfolding(crate::specs::Envelope::hold_step))]
    fn hold_step(self) -> EnvStep
        ensures { result ≡ hold_step self }
    {
        let h = self.hold;
        if h > 0 {
            let mut e = self;
            e.hold = h - 1;
            return EnvStep {
                value: self.value,
                env: e,
            };
        }
        self.at(EgState::Decay, self.value, self.transition_delta)
            .decay_step()
    }

    #[tactic(auto, unfolding(crate::specs::Envelope::attack_stage_step))]
    fn attack_step(self) -> EnvStep
        ensures { result ≡ attack_stage_step self }
    {
        let v = self.value + self.attack_step;
        if v < 1.0 {
            let mut e = self;
            e.value = v;
            return EnvStep { value: v, env: e };
        }
        self.at(EgState::Hold, 1.0, self.transition_delta)
            .hold_step()
    }

    #[tactic(auto, unfolding(crate::specs::Envelope::delay_step))]
    fn delay_step(self) -> EnvStep
        ensures { result ≡ delay_step self }
    {
        let d = self.delay;
        if d > 0 {
            let mut e = self;
            e.delay = d - 1;
            e.value = e.start;
            return EnvStep {
                value: self.start,
                env: e,
            };
        }
        self.at(EgState::Attack, self.value, self.transition_delta)
            .attack_step()
    }

    // A match over the states, one step each: the state is data, copied and compared with the rest, so that a step kept in its place as a
    // closure would have to be copied and compared too.
    #[tactic(auto, unfolding(crate::specs::Envelope::env_next))]
    pub fn next(self) -> EnvStep
        ensures { result ≡ env_next self }
    {
        match self.state {
            EgState::Delay => self.delay_step(),
            EgState::Attack => self.attack_step(),
            EgState::Hold => self.hold_step(),
            EgState::Decay => self.decay_step(),
            EgState::Sustain => self.sustain_step(),
            EgState::Release => self.release_step(),
            EgState::Fadeout => self.fadeout_step(),
            EgState::Done => self.done_step(),
        }
    }

    // The envelope is past its release: nothing is left to hear.
    pub fn done(self) -> bool
        ensures { result ≡ is_done self.state }
    {
        self.state == EgState::Done
    }

    // The release has begun.
    pub fn released(self) -> bool
        ensures { result ≡ is_released self.state }
    {
        matches!(
            self.state,
            EgState::Release | EgState::Fadeout | EgState::Done
        )
    }

    // How many frames of the delay are left.
    #[tactic(auto, unfolding(crate::specs::Envelope::delay_left))]
    pub fn remaining_delay(self) -> i64
        ensures { result ≡ delay_left self }
    {
        if self.state == EgState::Delay {
            self.delay
        } else {
            0
        }
    }

    // An envelope at its start: `extra_delay` is the region's own delay in frames, and the oscillator of a silent one-shot
    // region releases itself.
    #[tactic(auto, unfolding(crate::specs::Envelope::started))]
    pub fn new(e: Envelope, extra_delay: i64, sr: f32, oscillator_one_shot: bool) -> Env
        ensures { result ≡ started e extra_delay sr oscillator_one_shot }
    {
        let sustain = clamp_f32(e.sustain / 100.0, 0.0, 1.0);
        let start = clamp_f32(e.start / 100.0, 0.0, 1.0);
        let delay = delay_sum(extra_delay, secs_to_samples(e.delay, sr));
        let attack_step = lin_rate(e.attack, sr);
        let hold = secs_to_samples(e.hold, sr);
        let decay_rate = exp_rate(e.decay, sr);
        let release_rate = exp_rate(e.release, sr);
        let free_running = runs_freely(sustain, oscillator_one_shot);
        Env {
            state: EgState::Delay,
            value: start,
            start,
            delay,
            attack_step,
            hold,
            decay_rate,
            sustain,
            release_rate,
            transition_delta: 0.0,
            free_running,
            sample_rate: sr,
        }
    }

    // A release that has begun goes on at the new rate too.
    // A copy that is changed, as in the steps: with `..self` in all of them frames took 6 to 8 % more time.
    #[tactic(auto, unfolding(crate::specs::Envelope::release_timed))]
    pub fn set_release_time(self, t: f32) -> Env
        ensures { result ≡ release_timed t self }
    {
        let rate = exp_rate(t, self.sample_rate);
        let mut e = self;
        e.release_rate = rate;
        e
    }

    // A release that has begun goes on as it is.
    #[tactic(auto, unfolding(crate::specs::Envelope::released))]
    pub fn release(self) -> Env
        ensures { result ≡ released self }
    {
        if self.released() {
            return self;
        }
        self.at(EgState::Release, self.value, self.transition_delta)
    }
}

// This and the two below share the test of t alone: what each gives where it holds, its formula and, of one, the type are its own, so that
// one function for them would take a value and a closure for a line each. Nor is the rate a type with these as methods: their names are
// public and stay, so that each would stand twice.
// The factor of an exponential decay or release of t seconds, at least 6 ms: 0 where there is none.
#[tactic(auto, unfolding(crate::specs::Envelope::exp_rate))]
pub fn exp_rate(t: f32, sr: f32) -> f32
    ensures { result ≡ exp_rate t sr }
{
    if t <= 0.0 {
        0.0
    } else {
        exp(-9.0 / (max_f32(t, 6e-3) * sr))
    }
}

// The step of a linear attack of t seconds: 1 where there is none.
#[tactic(auto, unfolding(crate::specs::Envelope::lin_rate))]
pub fn lin_rate(t: f32, sr: f32) -> f32
    ensures { result ≡ lin_rate t sr }
{
    if t <= 0.0 { 1.0 } else { 1.0 / (sr * t) }
}

// How many whole frames t seconds are: none where t is not above 0.
#[tactic(auto, unfolding(crate::specs::Envelope::seconds_to_samples))]
pub fn secs_to_samples(t: f32, sr: f32) -> i64
    ensures { result ≡ seconds_to_samples t sr }
{
    if t <= 0.0 { 0 } else { f32_to_i64(t * sr) }
}

// Two delays after each other. One below 0 counts as none, and the sum rests at the largest number of frames.
#[tactic(auto, unfolding(crate::specs::Envelope::delay_sum))]
fn delay_sum(a: i64, b: i64) -> i64
    ensures { result ≡ delay_sum a b }
{
    if a <= 0 {
        b
    } else {
        a.saturating_add(b.max(0))
    }
}

// Whether the envelope leaves its sustain stage by itself.
#[tactic(auto, unfolding(crate::specs::Envelope::runs_freely))]
fn runs_freely(sustain: f32, oscillator_one_shot: bool) -> bool
    ensures { result ≡ runs_freely sustain oscillator_one_shot }
{
    sustain <= 0.0032 || oscillator_one_shot
}
