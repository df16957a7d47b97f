// Writes what the exact numbers give at the edges, a line for each: the function, its arguments' bits and the result's.
// The file `stdout` has the machine's own answers: answers.rs writes it with Rust's operators on the same tables, and
// never calls the port.
#![tactic(auto)]

mod tables;

use exact::cast::{
    f32_to_i64, f32_to_u8, f32_to_u32, f32_to_usize, f64_to_usize, i32_to_f32, u32_to_f32,
    u32_to_f64, u64_to_f32, u64_to_f64,
};
use exact::format::{narrow, widen};
use exact::integral::{ceil_f32, floor_f64, fract_f64, round_f32, trunc_f64};
use exact::order::{abs_f32, bits_f32, clamp_f32, from_bits_f32, is_finite_f32, max_f32, min_f32};
use exact::random::{rand01, splitmix64, uniform, wrapping_mul_u64};
use exact::root::sqrt_f32;
use std::num::{f64_from_bits_with_nan, f64_to_bits_with_nan};
use std::{fmt, io};

fn write(rt: &impl Print) -> io::Result<()> {
    tables::SINGLES.iter().try_for_each(|b| of_single(rt, *b))?;
    tables::PAIRED.iter().try_for_each(|b| pairs_with(rt, *b))?;
    tables::DOUBLES.iter().try_for_each(|b| of_double(rt, *b))?;
    tables::WHOLES.iter().try_for_each(|n| of_whole(rt, *n))?;
    tables::SIGNED.iter().try_for_each(|n| of_signed(rt, *n))?;
    published(rt, 1234567)?;
    published(rt, 0)
}

// What cannot be written is lost: the program ends as it does where all is written.
fn main(rt: HostRuntime) {
    let _ = write(&rt);
}

// A double's bits. Every NaN has the one pattern.
fn bits_f64(x: f64) -> u64 {
    f64_to_bits_with_nan(x)
}

// A function of a single that gives a single.
fn row(rt: &impl Print, name: &str, b: u32, r: f32) -> io::Result<()> {
    println!(rt; "{name} {b:08x} {:08x}", bits_f32(r))
}

fn of_single(rt: &impl Print, b: u32) -> io::Result<()> {
    let x = from_bits_f32(b);
    row(rt, "from_bits_f32", b, x)?;
    row(rt, "abs_f32", b, abs_f32(x))?;
    row(rt, "clamp_f32_0_1", b, clamp_f32(x, 0.0, 1.0))?;
    row(rt, "clamp_f32_zeros", b, clamp_f32(x, 0.0, -0.0))?;
    row(
        rt,
        "clamp_f32_infinities",
        b,
        clamp_f32(x, f32::NEG_INFINITY, f32::INFINITY),
    )?;
    println!(rt; "is_finite_f32 {b:08x} {}", is_finite_f32(x))?;
    println!(rt; "widen {b:08x} {:016x}", bits_f64(widen(x)))?;
    cast_single(rt, b, x)?;
    row(rt, "ceil_f32", b, ceil_f32(x))?;
    row(rt, "round_f32", b, round_f32(x))?;
    row(rt, "sqrt_f32", b, sqrt_f32(x))
}

// A single cast to each integer type.
fn cast_single(rt: &impl Print, b: u32, x: f32) -> io::Result<()> {
    println!(rt;
        "f32_to_u8_u32_usize_i64 {b:08x} {:016x} {:016x} {:016x} {}",
        f32_to_u8(x),
        f32_to_u32(x),
        f32_to_usize(x),
        Signed(f32_to_i64(x))
    )
}

// A negative number is written as its complement, behind a tilde.
#[derive(Clone, Copy)]
struct Signed(i64);

impl fmt::Display for Signed {
    fn fmt<W: fmt::Write>(&self, f: &mut fmt::Formatter<W>) -> fmt::Result {
        if self.0 < 0 {
            write!(f, "~{:016x}", !self.0)
        } else {
            write!(f, "{:016x}", self.0)
        }
    }
}

fn pairs_with(rt: &impl Print, b: u32) -> io::Result<()> {
    tables::PAIRED.iter().try_for_each(|c| of_pair(rt, b, *c))
}

fn of_pair(rt: &impl Print, b: u32, c: u32) -> io::Result<()> {
    let x = from_bits_f32(b);
    let y = from_bits_f32(c);
    let (larger, smaller) = (bits_f32(max_f32(x, y)), bits_f32(min_f32(x, y)));
    println!(rt; "max_min_f32 {b:08x} {c:08x} {larger:08x} {smaller:08x}")
}

// A double narrowed and cast, cut to a whole number, rounded down, and what the cut leaves.
fn of_double(rt: &impl Print, b: u64) -> io::Result<()> {
    let x = f64_from_bits_with_nan(b);
    println!(rt; "narrow {b:016x} {:08x}", bits_f32(narrow(x)))?;
    println!(rt; "f64_to_usize {b:016x} {:016x}", f64_to_usize(x))?;
    println!(rt;
        "trunc_floor_fract_f64 {b:016x} {:016x} {:016x} {:016x}",
        bits_f64(trunc_f64(x)),
        bits_f64(floor_f64(x)),
        bits_f64(fract_f64(x))
    )
}

// A whole number cast to floats, its lower half too, and hashed.
fn of_whole(rt: &impl Print, n: u64) -> io::Result<()> {
    let half = (n & 0xffff_ffff) as u32;
    let (single, double) = (bits_f32(u64_to_f32(n)), bits_f64(u64_to_f64(n)));
    let (half_single, half_double) = (bits_f32(u32_to_f32(half)), bits_f64(u32_to_f64(half)));
    println!(rt;
        "to_f32_f64 {n:016x} {single:08x} {double:016x} {half_single:08x} {half_double:016x}"
    )?;
    let (hash, share) = (splitmix64(n), bits_f32(uniform(n)));
    let (draw, square) = (bits_f32(rand01(half, n, 65536)), wrapping_mul_u64(n, n));
    println!(rt;
        "splitmix64_uniform_rand01 {n:016x} {hash:016x} {share:08x} {draw:08x} {square:016x}"
    )
}

fn of_signed(rt: &impl Print, n: i32) -> io::Result<()> {
    println!(rt;
        "i32_to_f32 {} {:08x}",
        Signed(i64::from(n)),
        bits_f32(i32_to_f32(n))
    )
}

// The first five outputs of SplitMix64 from a seed, as they are published: each step adds the gamma to the state.
fn published(rt: &impl Print, seed: u64) -> io::Result<()> {
    let mut state = seed;
    for _ in 0..5 {
        println!(rt; "SplitMix64 {}", splitmix64(state))?;
        state = state.wrapping_add(0x9e37_79b9_7f4a_7c15);
    }
    Ok(())
}
