// Writes 01's table "Marked for proof" as the compiled functions have it at 44,100 Hz, singles by their bits.
// That every row holds, at every rate above 0, is proved: specs/Marked has the table, proofs/Facts the fact.
#![tactic(auto)]

ghost use Rattle.std.specs.Prelude.{◌≡◌};
ghost use Rattle.marked.specs.Marked.{first_step};

use envelope::{Env, EnvStep};
use exact::cast::f64_to_usize;
use exact::order::bits_f32;
use gain::velocity_gain;
use interp::points::hermite3;
use interp::sinc::SincSpan;
use player::start::loop_at;
use program::region::Envelope;
use std::io;

fn write(rt: &impl Print) -> io::Result<()> {
    for sustain in [100.0f32, 50.0, 0.0] {
        envelope(rt, sustain)?;
    }
    for track in [100.0f32, -100.0] {
        gain(rt, track, 127)?;
        gain(rt, track, 0)?;
    }
    for x in [0.0f32, 1.0, 2.0] {
        kernel(rt, x)?;
    }
    for step in [1.0f64, 2.0, 4.0] {
        half_taps(rt, step)?;
    }
    looped(rt)
}

// What cannot be written is lost: the program ends as it does where all is written.
fn main(rt: HostRuntime) {
    let _ = write(&rt);
}

// The first step of `Envelope::default`, but for the sustain. Its fields are written out, as of the whole default this row alone is in use.
fn first_step(rate: f32, sustain: f32) -> EnvStep
    ensures { result ≡ first_step rate sustain }
{
    let e = Envelope {
        delay: 0.0,
        attack: 0.0,
        hold: 0.0,
        decay: 0.0,
        sustain,
        release: 0.001,
        start: 0.0,
    };
    Env::new(e, 0, rate, false).next()
}

fn envelope(rt: &impl Print, sustain: f32) -> io::Result<()> {
    let s = first_step(44100.0, sustain);
    let done = if s.env.done() { ", done" } else { "" };
    println!(rt;
        "first envelope value at sustain {:08x}: {:08x}{done}",
        bits_f32(sustain),
        bits_f32(s.value)
    )
}

fn gain(rt: &impl Print, track: f32, vel: u8) -> io::Result<()> {
    let gain = velocity_gain(track, None, vel);
    println!(rt;
        "velocity gain at {vel}, track {:08x}: {:08x}",
        bits_f32(track),
        bits_f32(gain)
    )
}

fn kernel(rt: &impl Print, x: f32) -> io::Result<()> {
    println!(rt;
        "hermite3 at {:08x}: {:08x}",
        bits_f32(x),
        bits_f32(hermite3(x))
    )
}

fn half_taps(rt: &impl Print, step: f64) -> io::Result<()> {
    let span = SincSpan::for_step(step);
    println!(rt; "half taps at step {}: {}", f64_to_usize(step), span.half)
}

fn looped(rt: &impl Print) -> io::Result<()> {
    let l = loop_at(10, 20, 15, 44100.0);
    println!(rt;
        "loop (10, 20) with last 15: end {}, size {}",
        l.end,
        f64_to_usize(l.size)
    )
}
