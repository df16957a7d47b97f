// A position in a sample: the frame at or before it, and what lies between the two. It is a number with a fact and no type of its own: the
// player's is in the memory that the host hands in, and each sum of a position and a step is a number before it is known to be a position,
// so that callers would wrap and unwrap at every step to save one clause a function.
ghost use Rattle.std.specs.Prelude.{◌≡◌, ◌≤◌, ◌+◌, if◌then◌else◌};
ghost use Rattle.std.specs.Float.Ieee.{lt, to_unsigned};
ghost use Rattle.interp.specs.Position.{Position, floored, fraction, is_whole, double, looped};

use crate::points::PCM_PAD;
use exact::format::narrow;

// What a kernel reads around: a place among the frames, counted from the silence in front, and how far behind it the position lies.
#[derive(Clone, Copy)]
pub struct Place {
    pub n: usize,
    pub f: f32,
    pub ghost in_reach: { (42 ≤ n) × (n ≤ 8589934634) },
}

impl Place {
    // That of the position p.
    #[inline(always)]
    pub(crate) fn of(p: f64) -> Place
        requires { Position p }
        ensures { (result.n ≡ to_unsigned 64 p + 42) × (result.f ≡ fraction p) }
    {
        Place {
            n: (frame_index(p) as usize) + PCM_PAD,
            f: fraction(p),
        }
    }
}

// What the whole number r next to x is too many.
fn excess(r: f64, x: f64) -> f64
    ensures { result ≡ (if lt x r then double 1 else double 0) }
{
    if r > x { 1.0 } else { 0.0 }
}

// A position without its fraction: five operations without a branch, where std's `floor` takes the size by two tests, tests it against 2^52,
// rounds it both up and down and puts the sign back, some twenty, and a player's frame asks for three. From 2^52 on doubles are whole numbers, so that p + 2^52 is rounded to one; it may be one too
// many.
fn whole(p: f64) -> f64
    requires { Position p }
    ensures { result ≡ double (to_unsigned 64 p) }
{
    let r = p + 4503599627370496.0 - 4503599627370496.0;
    r - excess(r, p)
}

// The frame at or before a position.
pub fn frame_index(p: f64) -> u64
    requires { Position p }
    ensures { (result ≡ to_unsigned 64 p) × (result ≤ 8589934592) }
{
    (whole(p) as i64) as u64
}

// Rust's `p.floor()` of a position.
pub fn floor(p: f64) -> f64
    requires { Position p }
    ensures { result ≡ floored p }
{
    if p == 0.0 {
        return p;
    }
    whole(p)
}

// How far a position lies behind its frame.
pub fn fraction(p: f64) -> f32
    requires { Position p }
    ensures { result ≡ fraction p }
{
    // a zero with a sign loses it, as it does by its own floor; no branch is needed then
    narrow(p + 0.0 - whole(p))
}

// Whether a position is a frame.
pub fn is_whole(p: f64) -> bool
    requires { Position p }
    ensures { result ≡ is_whole p }
{
    p - whole(p) == 0.0
}

// The loop's size off a position until it is below end + 1. Each difference is exact, so that all of them are one.
fn turned(p: f64, start: u32, end: u32) -> f64
    requires { Position p × (start ≤ end) }
    ensures { (result ≡ looped start end p) × Position result }
{
    let limit = (end as u64) + 1;
    let t = frame_index(p);
    if t < limit {
        return p;
    }
    let size = limit - (start as u64);
    let turns = (t - limit) / size + 1;
    p - ((turns * size) as f64)
}

// A position in the loop from start to end. Most are below end + 1, which one test shows.
pub fn wrap(p: f64, start: u32, end: u32) -> f64
    requires { Position p × (start ≤ end) }
    ensures { (result ≡ looped start end p) × Position result }
{
    let limit = (end as u64) + 1;
    if p >= (limit as f64) {
        return turned(p, start, end);
    }
    p
}
