// Between floats and integers, as Rust's `as` has it: toward zero and to the nearer end of the range, a NaN to 0; and to
// the nearest float, a tie to the even one.
ghost use Rattle.std.specs.Prelude.{◌≡◌, ◌^◌, pos};
ghost use Rattle.std.specs.Float.Ieee as Ieee;
ghost use Rattle.std.specs.Float.{binary32, binary64};
ghost use Rattle.std.specs.Float.Ieee.Nearest as Nearest;

// Rust's `x as u8`, by tests: std's conversion takes 6.5 ns for numbers beyond the range where these take 2.8.
pub fn f32_to_u8(x: f32) -> u8
    ensures { result ≡ Ieee.to_unsigned 8 x }
{
    if x >= 256.0 {
        return 255;
    }
    if x > 0.0 {
        return std::num::truncating_f32_to_u64(x) as u8;
    }
    0
}

// Rust's `x as u32`: std's conversion, after a test of what becomes 0 and one of what is in the range. Most numbers are told by
// the first, in 2.6 ns where std's takes 4.
pub fn f32_to_u32(x: f32) -> u32
    ensures { result ≡ Ieee.to_unsigned 32 x }
{
    if x < 1.0 {
        return 0;
    }
    if x < 4294967296.0 {
        return std::num::truncating_f32_to_u64(x) as u32;
    }
    std::num::saturating_f32_to_u32(x)
}

// Rust's `x as usize`, likewise.
pub fn f32_to_usize(x: f32) -> usize
    ensures { result ≡ Ieee.to_unsigned 64 x }
{
    if x < 1.0 {
        return 0;
    }
    if x < 18446744073709551616.0 {
        return std::num::truncating_f32_to_u64(x) as usize;
    }
    std::num::saturating_f32_to_usize(x)
}

// Rust's `x as usize`.
pub fn f64_to_usize(x: f64) -> usize
    ensures { result ≡ Ieee.to_unsigned 64 x }
{
    std::num::saturating_f64_to_usize(x)
}

// Rust's `x as i64`: std's conversion of a NaN, after tests of both ends and of the range, which take 4 ns where std's takes 5.3.
pub fn f32_to_i64(x: f32) -> i64
    ensures { result ≡ Ieee.to_signed 63 x }
{
    if x >= 9223372036854775808.0 {
        return 9223372036854775807;
    }
    if x >= -9223372036854775808.0 {
        return std::num::truncating_f32_to_i64(x);
    }
    if x < -9223372036854775808.0 {
        return -9223372036854775808;
    }
    std::num::saturating_f32_to_i64(x)
}

// m / 2^40 to the nearest whole number, a tie to the even one.
fn nearest_40(m: u64) -> u64
    ensures { result ≡ Nearest.closest m (2 ^ 40) }
{
    let q = m >> 40;
    q + ((m % 0x100_0000_0000 + 0x7f_ffff_ffff + q % 2) >> 40)
}

// Rust's `n as f32`. The digits from the leading one on go into the pattern: the first 24 rounded, the exponent from
// their place. std's conversion takes 8.1 ns where this takes 4.2.
pub fn u64_to_f32(n: u64) -> f32
    ensures { result ≡ Ieee.of_int binary32 (pos n) }
{
    if n == 0 {
        return 0.0;
    }
    let zeros = n.leading_zeros();
    let digits = nearest_40(n << zeros);
    f32::from_bits((189 - zeros) * 0x80_0000 + digits as u32)
}

// Rust's `n as f64`.
pub fn u64_to_f64(n: u64) -> f64
    ensures { result ≡ Ieee.of_int binary64 (pos n) }
{
    std::num::nearest_u64_to_f64(n)
}

// Rust's `n as f32`.
pub fn u32_to_f32(n: u32) -> f32
    ensures { result ≡ Ieee.of_int binary32 (pos n) }
{
    std::num::nearest_u32_to_f32(n)
}

// Rust's `n as f64`: every `u32` is a double.
pub fn u32_to_f64(n: u32) -> f64
    ensures { result ≡ Ieee.of_int binary64 (pos n) }
{
    n as f64
}

// Rust's `n as f32`.
pub fn i32_to_f32(n: i32) -> f32
    ensures { result ≡ Ieee.of_int binary32 n }
{
    std::num::nearest_i32_to_f32(n)
}
