// The hyperbolic sine, as half the difference of e^x and e^-x in doubles, narrowed. From 2^-12 up the difference keeps
// digits enough: the two differ by 2^-11 at least, and each is off by less than 2^-36 of itself.
ghost use Rattle.std.specs.Prelude.{◌≡◌};
ghost use Rattle.elementary.specs.Hyperbolic.{Sinh};
ghost use Rattle.elementary.specs.Functions.{sinh_of};

use crate::power::Exponent;
use exact::format::narrow;
use std::f64::consts::LOG2_E;

// 2^-12, and the largest single whose hyperbolic sine is at most 2^127.
const FIRST: f32 = 0.000244140625;

const LAST: f32 = 88.72283172607422;

// sinh x from 2^-12 up; every smaller argument gives a NaN.
pub fn sinh(x: f32) -> f32
    ensures { (result ≡ sinh_of x) × Sinh x result }
{
    if x.is_nan() {
        return x;
    }
    if x < FIRST {
        return f32::NAN;
    }
    if x > LAST {
        return f32::INFINITY;
    }
    let size = Exponent {
        y: x as f64 * LOG2_E,
    };
    narrow((size.up() - size.down()) * 0.5)
}
