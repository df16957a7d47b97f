// How loud a region plays and where, as sfizz has it: the gains by velocity, and the matrix of pan and width.
#![tactic(auto)]

ghost use Rattle.std.specs.Prelude.{◌≡◌};
ghost use Rattle.gain.specs.Gain.{cents_factor, curve_gain, velocity_gain, fade_shape, faded_in, faded_out, crossfade_gain, quarter_turn, pan_matrix};

use elementary::power::exp2;
use elementary::trig::{cos, sin};
use exact::cast::u32_to_f32;
use exact::order::{abs_f32, clamp_f32};
use exact::root::sqrt_f32;
use program::region::{VelCrossfade, XfCurve};

const FRAC_PI_2: f32 = 1.5707964;

const FRAC_1_SQRT_2: f32 = 0.70710677;

// 10^(3/20) and 10^(6/20).
const MONO_PAN_GAIN: f32 = 1.4125375;

const STEREO_PAN_GAIN: f32 = 1.9952623;

// out_l = ll l + rl r, out_r = lr l + rr r.
#[derive(Clone, Copy)]
pub struct Matrix {
    pub ll: f32,
    pub rl: f32,
    pub lr: f32,
    pub rr: f32,
}

// Cents as a factor of frequency or of step.
pub fn cents_factor(c: f32) -> f32
    ensures { result ≡ cents_factor c }
{
    exp2(c / 1200.0)
}

// The curve's gain, or the square of vel / 127.
fn curve_gain(curve: Option<f32>, vel: u8) -> f32
    ensures { result ≡ curve_gain curve vel }
{
    match curve {
        Some(g) => g,
        None => {
            let v = u32_to_f32(vel as u32) / 127.0;
            v * v
        }
    }
}

// The curve's gain, scaled by amp_veltrack.
pub fn velocity_gain(amp_veltrack: f32, curve: Option<f32>, vel: u8) -> f32
    ensures { result ≡ velocity_gain amp_veltrack curve vel }
{
    let vt = amp_veltrack / 100.0;
    let g = abs_f32(vt) * (1.0 - curve_gain(curve, vel));
    if vt < 0.0 { g } else { 1.0 - g }
}

// A fade's gain at its position, by the region's curve.
fn fade_shape(curve: XfCurve, pos: f32) -> f32
    ensures { result ≡ fade_shape curve pos }
{
    match curve {
        XfCurve::Gain => pos,
        XfCurve::Power => sqrt_f32(pos),
    }
}

// The two fades stay two: below `in_lo` one is silent, and past `out_hi` the other keeps the sign of g in g * 0.0.
fn fade_in(xf: VelCrossfade, v: f32, g: f32) -> f32
    ensures { result ≡ faded_in xf v g }
{
    if v < xf.in_lo {
        return 0.0;
    }
    let len = xf.in_hi - xf.in_lo - 1.0;
    if len > 0.0 && v < xf.in_hi {
        return g * fade_shape(xf.curve, (v - xf.in_lo) / len);
    }
    g
}

fn fade_out(xf: VelCrossfade, v: f32, g: f32) -> f32
    ensures { result ≡ faded_out xf v g }
{
    let len = xf.out_hi - xf.out_lo - 1.0;
    if len > 0.0 && v > xf.out_lo {
        let pos = (v - xf.out_lo) / len;
        if pos > 1.0 {
            return g * 0.0;
        }
        return g * fade_shape(xf.curve, 1.0 - pos);
    }
    g
}

// The gain of the region's velocity crossfade.
pub fn xf_gain(xf: Option<VelCrossfade>, vel: u8) -> f32
    ensures { result ≡ crossfade_gain xf vel }
{
    match xf {
        None => 1.0,
        Some(x) => {
            let v = u32_to_f32(vel as u32);
            fade_out(x, v, fade_in(x, v, 1.0))
        }
    }
}

// -100 to 100 percent as an angle from 0 to pi / 2.
fn quarter_turn(x: f32) -> f32
    ensures { result ≡ quarter_turn x }
{
    clamp_f32((x / 100.0 + 1.0) * 0.5, 0.0, 1.0) * FRAC_PI_2
}

// The output matrix of pan and width, in percent. A mono sample has no width.
pub fn pan_matrix(pan: f32, width: Option<f32>) -> Matrix
    ensures { result ≡ pan_matrix pan width }
{
    let p = quarter_turn(pan);
    let pl = cos(p);
    let pr = sin(p);
    match width {
        None => Matrix {
            ll: pl * MONO_PAN_GAIN,
            rl: 0.0,
            lr: pr * MONO_PAN_GAIN,
            rr: 0.0,
        },
        Some(w) => {
            let turn = quarter_turn(w);
            let c1 = cos(turn);
            let c2 = sin(turn);
            let k = STEREO_PAN_GAIN * FRAC_1_SQRT_2;
            Matrix {
                ll: k * c2 * pl,
                rl: k * c1 * pr,
                lr: k * c1 * pl,
                rr: k * c2 * pr,
            }
        }
    }
}
