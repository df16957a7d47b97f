// 2^x, e^x and 10^x, evaluated in doubles and narrowed. 01's rules leave the result open within one part in 4,194,304 of E,
// so the promise of the three limits it there; everywhere else it says what the result is.
ghost use Rattle.std.specs.Prelude.{◌≡◌, ◌*◌, ◌≤◌};
ghost use Rattle.std.specs.Float.Ieee as Ieee;
ghost use Rattle.std.specs.Float.{binary64};
ghost use Rattle.std.specs.Float.Ieee.Positive.{num, den};
ghost use Rattle.elementary.specs.Power.{ceil};
ghost use Rattle.elementary.specs.Kernel.{kernel, power_up, power_down, power_by, Small, Ranged};
ghost use Rattle.elementary.specs.Promise.{PowerOf};
ghost use Rattle.elementary.specs.Functions.{exp2_of, exp_of, pow10_of};

use crate::polynomial::Polynomial;
use exact::format::narrow;
use std::f64::consts::{LOG2_10, LOG2_E};

// The series of 2^r through the 12th power.
const SERIES: Polynomial<12> = Polynomial {
    highest: 0.000000000025678435993488206,
    lower: [
        0.00000000044455382718708117,
        0.0000000070549116208011234,
        0.0000001017808600923970,
        0.0000013215486790144310,
        0.000015252733804059840,
        0.0001540353039338161,
        0.0013333558146428443,
        0.009618129107628477,
        0.05550410866482158,
        0.24022650695910072,
        0.6931471805599453,
        1.0,
    ],
};

// The one kernel of this crate's powers and its logarithm.
#[tactic(auto, unfolding(crate::specs::Kernel::horner_f))]
pub(crate) fn series(r: f64) -> f64
    ensures { result ≡ kernel r }
{
    SERIES.at(r)
}

// 2^(n - 1023)
fn scale(n: u64) -> f64
    requires least { 1 ≤ n }
    requires most { n ≤ 2046 }
    ensures { result ≡ Ieee.of_bits binary64 (n * 4503599627370496) }
{
    f64::from_bits(n * 4503599627370496)
}

// An exponent from 0 to 128, with no digit below 2^-250.
#[derive(Clone, Copy)]
pub(crate) struct Exponent {
    pub(crate) y: f64,
    ghost small: { Small 128 y },
}

impl Exponent {
    // The least whole number that is not below y, as the integer that `scale` takes.
    fn ceiling(self) -> u64
        ensures { result ≡ ceil (num self.y) (den self.y) }
    {
        std::num::saturating_f64_to_u64(self.y.ceil())
    }

    // 2^y
    pub(crate) fn up(self) -> f64
        ensures { result ≡ power_up self.y }
    {
        let n = std::num::truncating_f64_to_u64(self.y);
        let whole = n as f64;
        series(self.y - whole) * scale(n + 1023)
    }

    // 2^-y. Not one function with `up`: this one rounds up and takes away where that one cuts and adds, so a shared body would
    // branch on the sign at each step.
    pub(crate) fn down(self) -> f64
        ensures { result ≡ power_down self.y }
    {
        let n = self.ceiling();
        let whole = n as f64;
        series(whole - self.y) * scale(1023 - n)
    }
}

// The base 2^factor. From `least` to `most` its powers are from 2^-126 to 2^127.
#[derive(Clone, Copy)]
struct Base {
    factor: f64,
    least: f32,
    most: f32,
    ghost ranged: { Ranged factor least most },
}

impl Base {
    // The power x; below `least` it is 0, above `most` plus infinity.
    fn power(self, x: f32) -> f32
        ensures { result ≡ power_by self.factor self.least self.most x }
    {
        if x.is_nan() {
            return x;
        }
        if x < self.least {
            return 0.0;
        }
        if x > self.most {
            return f32::INFINITY;
        }
        let y = x as f64;
        if y < 0.0 {
            let size = Exponent {
                y: -y * self.factor,
            };
            return narrow(size.down());
        }
        if y > 0.0 {
            let size = Exponent { y: y * self.factor };
            return narrow(size.up());
        }
        1.0
    }
}

// 2^x.
pub fn exp2(x: f32) -> f32
    ensures { (result ≡ exp2_of x) × PowerOf 1 1 x result }
{
    let base = Base {
        factor: 1.0,
        least: -126.0,
        most: 127.0,
    };
    base.power(x)
}

// e^x.
pub fn exp(x: f32) -> f32
    ensures { (result ≡ exp_of x) × PowerOf 1442695040888963407 1000000000000000000 x result }
{
    let base = Base {
        factor: LOG2_E,
        least: -87.33654022216797,
        most: 88.0296859741211,
    };
    base.power(x)
}

// 10^x.
pub fn pow10(x: f32) -> f32
    ensures { (result ≡ pow10_of x) × PowerOf 3321928094887362348 1000000000000000000 x result }
{
    let base = Base {
        factor: LOG2_10,
        least: -37.929779052734375,
        most: 38.23080825805664,
    };
    base.power(x)
}
