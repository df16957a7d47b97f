// The biquads of the Audio EQ Cookbook that a region can ask for. Each takes the quality, also the shelves.
ghost use Rattle.std.specs.Prelude.{◌≡◌};
ghost use Rattle.filter_design.specs.Cookbook.{angle_of, amplitude, normalized, over, low_pass, high_pass, band_pass, notch, peaking, low_shelf, high_shelf};

use elementary::power::pow10;
use elementary::trig::{cos, sin};
use exact::root::sqrt_f32;
use filter::Coefficients;

pub(crate) const TAU: f32 = 6.2831855;

// What a design is asked for: its frequency and quality, a gain where it has one, and the rate.
#[derive(Clone, Copy)]
pub struct Design {
    pub freq: f32,
    pub q: f32,
    pub gain_db: f32,
    pub sample_rate: f32,
}

// What the designs share: cos w0, and alpha = sin w0 / (2 q).
#[derive(Clone, Copy)]
pub struct Angle {
    pub cos_w0: f32,
    pub alpha: f32,
}

impl Angle {
    // b0, b1 and b2 over the denominator of the designs without a gain.
    fn over(self, b0: f32, b1: f32, b2: f32) -> Coefficients
        ensures { result ≡ normalized (over b0 b1 b2 self) }
    {
        normalize(Unscaled {
            b0,
            b1,
            b2,
            a0: 1.0 + self.alpha,
            a1: -2.0 * self.cos_w0,
            a2: 1.0 - self.alpha,
        })
    }
}

// A biquad's six coefficients, before they are divided by a0.
#[derive(Drop)]
pub struct Unscaled {
    pub b0: f32,
    pub b1: f32,
    pub b2: f32,
    pub a0: f32,
    pub a1: f32,
    pub a2: f32,
}

#[tactic(auto, unfolding(crate::specs::Cookbook::angle_of))]
fn biquad_params(d: Design) -> Angle
    ensures { result ≡ angle_of d.freq d.q d.sample_rate }
{
    let w0 = TAU * d.freq / d.sample_rate;
    let sin_w0 = sin(w0);
    let cos_w0 = cos(w0);
    Angle {
        cos_w0,
        alpha: sin_w0 / (2.0 * d.q),
    }
}

// Five products written out: as an array's map they would be put into an array by name and taken out of it by name, in as many lines.
#[tactic(auto, unfolding(crate::specs::Cookbook::normalized))]
fn normalize(u: Unscaled) -> Coefficients
    ensures { result ≡ normalized u }
{
    let inv_a0 = 1.0 / u.a0;
    Coefficients {
        b0: u.b0 * inv_a0,
        b1: u.b1 * inv_a0,
        b2: u.b2 * inv_a0,
        a1: u.a1 * inv_a0,
        a2: u.a2 * inv_a0,
    }
}

#[tactic(auto, unfolding(crate::specs::Cookbook::low_pass))]
pub fn biquad_lpf_coeffs(d: Design) -> Coefficients
    ensures { result ≡ normalized (low_pass (angle_of d.freq d.q d.sample_rate)) }
{
    let w = biquad_params(d);
    let b0 = (1.0 - w.cos_w0) / 2.0;
    w.over(b0, 1.0 - w.cos_w0, b0)
}

#[tactic(auto, unfolding(crate::specs::Cookbook::high_pass))]
pub fn biquad_hpf_coeffs(d: Design) -> Coefficients
    ensures { result ≡ normalized (high_pass (angle_of d.freq d.q d.sample_rate)) }
{
    let w = biquad_params(d);
    let b0 = (1.0 + w.cos_w0) / 2.0;
    w.over(b0, -(1.0 + w.cos_w0), b0)
}

#[tactic(auto, unfolding(crate::specs::Cookbook::band_pass))]
pub fn biquad_bpf_coeffs(d: Design) -> Coefficients
    ensures { result ≡ normalized (band_pass (angle_of d.freq d.q d.sample_rate)) }
{
    let w = biquad_params(d);
    w.over(w.alpha, 0.0, -w.alpha)
}

#[tactic(auto, unfolding(crate::specs::Cookbook::notch))]
pub fn biquad_notch_coeffs(d: Design) -> Coefficients
    ensures { result ≡ normalized (notch (angle_of d.freq d.q d.sample_rate)) }
{
    let w = biquad_params(d);
    w.over(1.0, -2.0 * w.cos_w0, 1.0)
}

#[tactic(auto, unfolding(crate::specs::Cookbook::peaking))]
pub fn biquad_peaking_coeffs(d: Design) -> Coefficients
    ensures { result ≡ normalized (peaking (angle_of d.freq d.q d.sample_rate) (amplitude d.gain_db)) }
{
    let w = biquad_params(d);
    let a = pow10(d.gain_db / 40.0);
    normalize(Unscaled {
        b0: 1.0 + w.alpha * a,
        b1: -2.0 * w.cos_w0,
        b2: 1.0 - w.alpha * a,
        a0: 1.0 + w.alpha / a,
        a1: -2.0 * w.cos_w0,
        a2: 1.0 - w.alpha / a,
    })
}

// The two shelves stay apart, term by term as the cookbook prints them: one for both would take six signs.
#[tactic(auto, unfolding(crate::specs::Cookbook::low_shelf))]
pub fn biquad_low_shelf_coeffs(d: Design) -> Coefficients
    ensures { result ≡ normalized (low_shelf (angle_of d.freq d.q d.sample_rate) (amplitude d.gain_db)) }
{
    let w = biquad_params(d);
    let a = pow10(d.gain_db / 40.0);
    let two_sqrt_a_alpha = 2.0 * sqrt_f32(a) * w.alpha;
    normalize(Unscaled {
        b0: a * ((a + 1.0) - (a - 1.0) * w.cos_w0 + two_sqrt_a_alpha),
        b1: 2.0 * a * ((a - 1.0) - (a + 1.0) * w.cos_w0),
        b2: a * ((a + 1.0) - (a - 1.0) * w.cos_w0 - two_sqrt_a_alpha),
        a0: (a + 1.0) + (a - 1.0) * w.cos_w0 + two_sqrt_a_alpha,
        a1: -2.0 * ((a - 1.0) + (a + 1.0) * w.cos_w0),
        a2: (a + 1.0) + (a - 1.0) * w.cos_w0 - two_sqrt_a_alpha,
    })
}

#[tactic(auto, unfolding(crate::specs::Cookbook::high_shelf))]
pub fn biquad_high_shelf_coeffs(d: Design) -> Coefficients
    ensures { result ≡ normalized (high_shelf (angle_of d.freq d.q d.sample_rate) (amplitude d.gain_db)) }
{
    let w = biquad_params(d);
    let a = pow10(d.gain_db / 40.0);
    let two_sqrt_a_alpha = 2.0 * sqrt_f32(a) * w.alpha;
    normalize(Unscaled {
        b0: a * ((a + 1.0) + (a - 1.0) * w.cos_w0 + two_sqrt_a_alpha),
        b1: -2.0 * a * ((a - 1.0) + (a + 1.0) * w.cos_w0),
        b2: a * ((a + 1.0) + (a - 1.0) * w.cos_w0 - two_sqrt_a_alpha),
        a0: (a + 1.0) - (a - 1.0) * w.cos_w0 + two_sqrt_a_alpha,
        a1: 2.0 * ((a - 1.0) - (a + 1.0) * w.cos_w0),
        a2: (a + 1.0) - (a - 1.0) * w.cos_w0 - two_sqrt_a_alpha,
    })
}
