// A region's velocity curve: an entry of the Rust's `velcurve_table`, found in one pass over the points.
ghost use Rattle.std.specs.Prelude.{◌≡◌, ◌≤◌, fold, min};
ghost use Rattle.std.specs.List.{zip};
ghost use Rattle.program.specs.Curve.{points_of, point_of_words, near_step, near_of, near_first, linear, velcurve_at};

use super::region::{REGION_WORDS, float_of, words_of};

// Velocity points that a region has words for.
const MAX_POINTS: u32 = 128;

// A velocity and its gain.
#[derive(Clone, Copy)]
pub struct Point {
    pub velocity: u8,
    pub gain: f32,
}

// The points nearest to a velocity, from below and from above.
#[derive(Drop)]
pub struct Near {
    pub lo: Point,
    pub hi: Point,
}

// A velocity above 127 counts as 127.
fn point_of(velocity: u32, gain: u32) -> Point
    ensures { result ≡ point_of_words velocity gain }
{
    Point {
        velocity: velocity.min(127) as u8,
        gain: float_of(gain),
    }
}

// With the point in the place of those that it is nearer than.
#[tactic(auto, unfolding(crate::specs::Curve::near_step))]
fn near_step(v: u8, s: Near, p: Point) -> Near
    ensures { result ≡ near_step v s p }
{
    let Near { lo, hi } = s;
    Near {
        lo: if (lo.velocity..=v).contains(&p.velocity) {
            p
        } else {
            lo
        },
        hi: if (v..=hi.velocity).contains(&p.velocity) {
            p
        } else {
            hi
        },
    }
}

// Before any point: velocities 0 and 127 have their gains.
fn near_first(v: u8) -> Near
    ensures { result ≡ near_first v }
{
    let silent = Point {
        velocity: 0,
        gain: 0.0,
    };
    let loud = Point {
        velocity: 127,
        gain: 1.0,
    };
    Near {
        lo: if v == 127 { loud } else { silent },
        hi: if v == 0 { silent } else { loud },
    }
}

// The points nearest to v, of those with these velocities and gains.
fn nearest_of(velocities: &[u32], gains: &[u32], v: u8) -> Near
    ensures { result ≡ fold (λ s p. near_step v s (point_of_words p.0 p.1)) (near_first v) (zip velocities.now gains.now) }
{
    velocities.iter().zip(gains).fold(
        near_first(v),
        |s, (velocity, gain)| near_step(v, s, point_of(*velocity, *gain)),
    )
}

// The points nearest to v, of a region's words.
fn nearest(r: &[u32; REGION_WORDS], v: u8) -> Near
    ensures { result ≡ near_of v (near_first v) (points_of r.now) }
{
    let n = r[29].min(MAX_POINTS) as usize;
    nearest_of(&r[136..136 + n], &r[264..264 + n], v)
}

// Between the two nearest points, in singles.
fn blend(s: Near, v: u8) -> f32
    requires { (s.lo.velocity ≤ v) × (v ≤ s.hi.velocity) }
    ensures { result ≡ linear s.lo s.hi v }
{
    let Near { lo, hi } = s;
    if lo.velocity == hi.velocity {
        return lo.gain;
    }
    let t = ((v - lo.velocity) as f32) / ((hi.velocity - lo.velocity) as f32);
    lo.gain + t * (hi.gain - lo.gain)
}

// Entry `vel` of region i's velocity curve; a velocity above 127 counts as 127.
pub fn velcurve(words: &[u32], i: u32, vel: u8) -> f32
    ensures { result ≡ velcurve_at words.now i vel }
{
    let v = vel.min(127);
    blend(nearest(words_of(words, i), v), v)
}
