// The kernels of two and of four points.
ghost use Rattle.std.specs.Prelude.{◌≡◌, ◌≤◌, not, ◌&&◌};
ghost use Rattle.std.specs.Float.Ieee.{lt};
ghost use Rattle.exact.specs.Single.{f0, f1, f2};
ghost use Rattle.interp.specs.Points.{near_weight, far_weight, weight3, frame_at, linear_at, weights_at, hermite_at};

use crate::position::Place;
use exact::order::abs_f32;

// How many frames of silence a channel has in front: places count from there, so that none that a kernel draws on is below 0.
pub const PCM_PAD: usize = 42;

// The frame in place n, which is frame n - PCM_PAD of the sample; 0.0 outside it. A place in the silence wraps round to a
// number that no sample reaches, so that one test serves both ends.
pub fn frame_at(frames: &[f32], n: usize) -> f32
    ensures { result ≡ frame_at frames.now n }
{
    frames.get(n.wrapping_sub(PCM_PAD)).copied().unwrap_or(0.0)
}

// Between the frames in the places n and n + 1, by f.
#[tactic(auto, unfolding(crate::specs::Points::linear_at))]
pub fn linear(frames: &[f32], n: usize, f: f32) -> f32
    requires { n ≤ 8589934634 }
    ensures { result ≡ linear_at frames.now n f }
{
    let a = frame_at(frames, n);
    let b = frame_at(frames, n + 1);
    a + f * (b - a)
}

// The weight below the distance 1.
fn near_weight(d: f32) -> f32
    ensures { result ≡ near_weight d }
{
    let d2 = d * d;
    let d3 = d2 * d;
    1.0 - 2.5 * d2 + 1.5 * d3
}

// The weight from 1 to 2.
fn far_weight(d: f32) -> f32
    ensures { result ≡ far_weight d }
{
    let d2 = d * d;
    let d3 = d2 * d;
    2.0 - 4.0 * d + 2.5 * d2 - 0.5 * d3
}

// The Catmull-Rom weight at the distance x.
#[tactic(auto, unfolding(crate::specs::Points::weight3))]
pub fn hermite3(x: f32) -> f32
    ensures { result ≡ weight3 x }
{
    let d = abs_f32(x);
    if d < 1.0 {
        near_weight(d)
    } else if d < 2.0 {
        far_weight(d)
    } else {
        0.0
    }
}

// The weights of any f, one by one.
fn each_weight(f: f32) -> [f32; 4]
    ensures { result ≡ weights_at f }
{
    [-1.0 - f, -f, 1.0 - f, 2.0 - f].map(hermite3)
}

// Whether v lies between 0 and 1.
fn in_first(v: f32) -> bool
    ensures { result ≡ (lt f0 v && lt v f1) }
{
    0.0 < v && v < 1.0
}

// Whether v lies from 1 to 2.
fn in_second(v: f32) -> bool
    ensures { result ≡ (not (lt v f1) && lt v f2) }
{
    !(v < 1.0) && v < 2.0
}

// The weights around a position that lies f behind the second frame. Where f is a part of 1 it is known which side of 1 each
// distance lies on, and its sign: the machine then works the four out side by side.
fn weigh(f: f32) -> [f32; 4]
    ensures { result ≡ weights_at f }
{
    let x = -(-1.0 - f);
    let z = 1.0 - f;
    let w = 2.0 - f;
    if in_first(f) && in_first(z) && in_second(x) && in_second(w) {
        return [far_weight(x), near_weight(f), near_weight(z), far_weight(w)];
    }
    each_weight(f)
}

// The frames around a place, from the one before it to the second behind it, each by its weight.
#[tactic(auto, unfolding(crate::specs::Points::hermite_at))]
pub fn hermite(frames: &[f32], at: Place) -> f32
    ensures { result ≡ hermite_at frames.now at.n at.f }
{
    let a = frame_at(frames, at.n - 1);
    let b = frame_at(frames, at.n);
    let c = frame_at(frames, at.n + 1);
    let d = frame_at(frames, at.n + 2);
    let w = weigh(at.f);
    w[0] * a + w[1] * b + w[2] * c + w[3] * d
}
