// The windowed sinc, whose cutoff follows the playback step.
ghost use Rattle.std.specs.Prelude.{◌≡◌, ◌+◌, ◌*◌, ◌≤◌, Bool, min};
ghost use Rattle.interp.specs.Span.{ceiling, stretch_of, span_for};
ghost use Rattle.interp.specs.Sinc.{crossings_of, sinc_at};
ghost use Rattle.interp.specs.Places.{place_of, Placed};

use crate::Kernel;
use crate::channels::Channels;
use crate::position::Place;
use crate::tap::{TapPlace, whole};
use exact::format::narrow;
use exact::order::abs_f32;

// What a step asks of the kernel: its cutoff, as a fraction of the sample's Nyquist frequency, and its taps on each side.
#[derive(Clone, Copy)]
pub struct SincSpan {
    pub fc: f32,
    pub half: u16,
}

impl SincSpan {
    // The span for a playback step, in frames of the sample per output frame.
    #[tactic(auto, unfolding(crate::specs::Span::span_for))]
    pub fn for_step(step: f64) -> SincSpan
        ensures { result ≡ span_for step }
    {
        let fc = 0.88 / stretch(step);
        SincSpan {
            fc,
            half: half_taps(16.0 / fc),
        }
    }
}

// How much wider the kernel is than at its full cutoff.
#[tactic(auto, unfolding(crate::specs::Span::stretch_of))]
fn stretch(step: f64) -> f32
    ensures { result ≡ stretch_of step }
{
    if step > 1.0 { narrow(step) } else { 1.0 }
}

// The least whole number from x on, at most 40. By `x.ceil()` it would owe that the sum of a single and 1 is rounded to no less than 40
// wherever x is above 39, also where it is infinite; the two tests say it.
fn half_taps(x: f32) -> u16
    ensures { result ≡ min (ceiling x) 40 }
{
    if x > 39.0 {
        return 40;
    }
    if x > 0.0 {
        let n = std::num::truncating_f32_to_u64(x) as u16;
        if (n as f32) < x {
            return n + 1;
        }
        return n;
    }
    0
}

// How far tap k lies from the position, in zero crossings.
#[tactic(auto, unfolding(crate::specs::Sinc::crossings_of))]
fn crossings(span: SincSpan, f: f32, k: u16) -> f32
    ensures { result ≡ crossings_of span f k }
{
    let x = f + ((span.half as f32) - 1.0 - (k as f32));
    x * span.fc
}

// The place in the table of what is v zero crossings away; behind the table where the window does not reach that far.
#[tactic(auto, unfolding(crate::specs::Places::place_of))]
fn place(v: f32) -> f32
    ensures { result ≡ place_of v }
{
    let u = abs_f32(v);
    if u < 16.0 { u * 512.0 } else { 8193.0 }
}

// The places of tap k and the three after it: the entry at or before each, and the part of the way to the next one. All are
// worked out before one is stored, so that the machine does the four at once. An entry is small, so that it is an i32, too,
// which the machine makes of a float in one operation.
fn put_four(span: SincSpan, f: f32, k: u16, entries: &mut [u32; 80], parts: &mut [f32; 80])
    requires { (k ≤ 76) × Placed span f entries.old parts.old k }
    ensures { Placed span f entries.new parts.new (k + 4) }
{
    let y0 = place(crossings(span, f, k));
    let y1 = place(crossings(span, f, k + 1));
    let y2 = place(crossings(span, f, k + 2));
    let y3 = place(crossings(span, f, k + 3));
    let w0 = whole(y0);
    let w1 = whole(y1);
    let w2 = whole(y2);
    let w3 = whole(y3);
    let i0 = (w0 as i32) as u32;
    let i1 = (w1 as i32) as u32;
    let i2 = (w2 as i32) as u32;
    let i3 = (w3 as i32) as u32;
    let i = k as usize;
    entries[i] = i0;
    entries[i + 1] = i1;
    entries[i + 2] = i2;
    entries[i + 3] = i3;
    parts[i] = y0 - w0;
    parts[i + 1] = y1 - w1;
    parts[i + 2] = y2 - w2;
    parts[i + 3] = y3 - w3;
}

// The places of all taps, in a pass of its own; and those of two more where the last four is but half of them.
fn places(span: SincSpan, f: f32, entries: &mut [u32; 80], parts: &mut [f32; 80])
    requires { span.half ≤ 40 }
    ensures { Placed span f entries.new parts.new (2 * span.half) }
{
    for j in 0..(span.half + 1) / 2 {
        put_four(span, f, 4 * j, entries, parts);
    }
}

// The frames around a place, the weights once for all channels.
#[inline(never)]
pub fn sinc<C: Channels>(kernel: Kernel<'_>, channels: C, at: Place) -> C::Frame
    ensures { (right : Bool) → C.part result right ≡ sinc_at kernel.entry.table.now (C.frames channels right) kernel.entry.span at.n at.f }
{
    let span = kernel.span;
    let mut entries = [0u32; 80];
    let mut parts = [0.0f32; 80];
    places(span, at.f, &mut entries, &mut parts);
    let mut sum = C::Frame::default();
    let mut wsum = 0.0f32;
    for k in 0..2 * (span.half as usize) {
        let tap = TapPlace {
            entry: entries[k],
            part: parts[k],
        };
        if tap.entry <= 8192 {
            let w = tap.weight(kernel.table);
            sum = channels.more(sum, w, at.n + 1 + k - (span.half as usize));
            wsum = wsum + w;
        }
    }
    channels.mean(sum, wsum)
}
