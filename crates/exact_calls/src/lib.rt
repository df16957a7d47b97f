// The exact numbers, exported for a program in another language to call: one function for each C name, and none over types. Each
// contract is that of the function called.
#![tactic(auto)]

ghost use Rattle.std.specs.Prelude.{◌≡◌, ◌*◌, ◌%◌, ◌^◌, pos};
ghost use Rattle.std.specs.Float.Ieee as Ieee;
ghost use Rattle.std.specs.Float.{binary32, binary64};
ghost use Rattle.std.specs.Float.Ieee.Scale.{finite};
ghost use Rattle.exact.specs.Narrow.{narrowed};
ghost use Rattle.exact.specs.Order.{magnitude, maximum, minimum, clamped};
ghost use Rattle.exact.specs.Integral.{integral, fraction, toward_zero, toward_negative, toward_positive, ties_to_away};
ghost use Rattle.exact.specs.Root.{square_root};
ghost use Rattle.exact.specs.Random.{split_mix, uniform_of, drawn};

#[unsafe(no_mangle)]
pub extern "C" fn rt_narrow(x: f64) -> f32
    ensures { result ≡ narrowed x }
{
    exact::format::narrow(x)
}

#[unsafe(no_mangle)]
pub extern "C" fn rt_widen(x: f32) -> f64
    ensures { result ≡ x }
{
    exact::format::widen(x)
}

#[unsafe(no_mangle)]
pub extern "C" fn rt_f32_to_u8(x: f32) -> u8
    ensures { result ≡ Ieee.to_unsigned 8 x }
{
    exact::cast::f32_to_u8(x)
}

#[unsafe(no_mangle)]
pub extern "C" fn rt_f32_to_u32(x: f32) -> u32
    ensures { result ≡ Ieee.to_unsigned 32 x }
{
    exact::cast::f32_to_u32(x)
}

#[unsafe(no_mangle)]
pub extern "C" fn rt_f32_to_usize(x: f32) -> usize
    ensures { result ≡ Ieee.to_unsigned 64 x }
{
    exact::cast::f32_to_usize(x)
}

#[unsafe(no_mangle)]
pub extern "C" fn rt_f64_to_usize(x: f64) -> usize
    ensures { result ≡ Ieee.to_unsigned 64 x }
{
    exact::cast::f64_to_usize(x)
}

#[unsafe(no_mangle)]
pub extern "C" fn rt_f32_to_i64(x: f32) -> i64
    ensures { result ≡ Ieee.to_signed 63 x }
{
    exact::cast::f32_to_i64(x)
}

#[unsafe(no_mangle)]
pub extern "C" fn rt_u64_to_f32(n: u64) -> f32
    ensures { result ≡ Ieee.of_int binary32 (pos n) }
{
    exact::cast::u64_to_f32(n)
}

#[unsafe(no_mangle)]
pub extern "C" fn rt_u64_to_f64(n: u64) -> f64
    ensures { result ≡ Ieee.of_int binary64 (pos n) }
{
    exact::cast::u64_to_f64(n)
}

#[unsafe(no_mangle)]
pub extern "C" fn rt_u32_to_f32(n: u32) -> f32
    ensures { result ≡ Ieee.of_int binary32 (pos n) }
{
    exact::cast::u32_to_f32(n)
}

#[unsafe(no_mangle)]
pub extern "C" fn rt_u32_to_f64(n: u32) -> f64
    ensures { result ≡ Ieee.of_int binary64 (pos n) }
{
    exact::cast::u32_to_f64(n)
}

#[unsafe(no_mangle)]
pub extern "C" fn rt_i32_to_f32(n: i32) -> f32
    ensures { result ≡ Ieee.of_int binary32 n }
{
    exact::cast::i32_to_f32(n)
}

#[unsafe(no_mangle)]
pub extern "C" fn rt_abs_f32(x: f32) -> f32
    ensures { result ≡ magnitude x }
{
    exact::order::abs_f32(x)
}

#[unsafe(no_mangle)]
pub extern "C" fn rt_max_f32(x: f32, y: f32) -> f32
    ensures { result ≡ maximum x y }
{
    exact::order::max_f32(x, y)
}

#[unsafe(no_mangle)]
pub extern "C" fn rt_min_f32(x: f32, y: f32) -> f32
    ensures { result ≡ minimum x y }
{
    exact::order::min_f32(x, y)
}

#[unsafe(no_mangle)]
pub extern "C" fn rt_clamp_f32(x: f32, lo: f32, hi: f32) -> f32
    ensures { result ≡ clamped x lo hi }
{
    exact::order::clamp_f32(x, lo, hi)
}

#[unsafe(no_mangle)]
pub extern "C" fn rt_is_finite_f32(x: f32) -> bool
    ensures { result ≡ finite x }
{
    exact::order::is_finite_f32(x)
}

#[unsafe(no_mangle)]
pub extern "C" fn rt_bits_f32(x: f32) -> u32
    ensures { result ≡ Ieee.to_bits binary32 x }
{
    exact::order::bits_f32(x)
}

#[unsafe(no_mangle)]
pub extern "C" fn rt_from_bits_f32(b: u32) -> f32
    ensures { result ≡ Ieee.of_bits binary32 b }
{
    exact::order::from_bits_f32(b)
}

#[unsafe(no_mangle)]
pub extern "C" fn rt_wrapping_mul_u64(a: u64, b: u64) -> u64
    ensures { result ≡ (a * b) % 2 ^ 64 }
{
    exact::random::wrapping_mul_u64(a, b)
}

#[unsafe(no_mangle)]
pub extern "C" fn rt_splitmix64(z: u64) -> u64
    ensures { result ≡ split_mix z }
{
    exact::random::splitmix64(z)
}

#[unsafe(no_mangle)]
pub extern "C" fn rt_uniform(h: u64) -> f32
    ensures { result ≡ uniform_of h }
{
    exact::random::uniform(h)
}

#[unsafe(no_mangle)]
pub extern "C" fn rt_rand01(seed: u32, serial: u64, salt: u64) -> f32
    ensures { result ≡ drawn seed serial salt }
{
    exact::random::rand01(seed, serial, salt)
}

#[unsafe(no_mangle)]
pub extern "C" fn rt_trunc_f64(x: f64) -> f64
    ensures { result ≡ integral binary64 toward_zero x }
{
    exact::integral::trunc_f64(x)
}

#[unsafe(no_mangle)]
pub extern "C" fn rt_floor_f64(x: f64) -> f64
    ensures { result ≡ integral binary64 toward_negative x }
{
    exact::integral::floor_f64(x)
}

#[unsafe(no_mangle)]
pub extern "C" fn rt_fract_f64(x: f64) -> f64
    ensures { result ≡ fraction binary64 x }
{
    exact::integral::fract_f64(x)
}

#[unsafe(no_mangle)]
pub extern "C" fn rt_ceil_f32(x: f32) -> f32
    ensures { result ≡ integral binary32 toward_positive x }
{
    exact::integral::ceil_f32(x)
}

#[unsafe(no_mangle)]
pub extern "C" fn rt_round_f32(x: f32) -> f32
    ensures { result ≡ integral binary32 ties_to_away x }
{
    exact::integral::round_f32(x)
}

#[unsafe(no_mangle)]
pub extern "C" fn rt_sqrt_f32(x: f32) -> f32
    ensures { result ≡ square_root binary32 x }
{
    exact::root::sqrt_f32(x)
}
