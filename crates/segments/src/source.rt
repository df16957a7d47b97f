// One frame of a player's sample, before its filters.
ghost use Rattle.std.specs.Prelude.{◌≡◌, ◌≤◌, IfSome};
ghost use Rattle.interp.specs.Position.{Position};
ghost use Rattle.player.specs.Bounds.{LoopOk, Wrapped, ColdOk};
ghost use Rattle.segments.specs.Ahead.{Reads};
ghost use Rattle.segments.specs.Source.{sound_of, current_loop, place_in, at_end, is_unity, stored_at, frame_of, frame_in, s_curve, fade_of, in_fade, behind, faded, crossfaded, read_frame};

use super::ahead::Kept;
use elementary::trig::cos;
use envelope::Env;
use exact::format::narrow;
use exact::order::clamp_f32;
use exact::pair::Pair;
use interp::Kernel;
use interp::points::{PCM_PAD, frame_at};
use interp::position::{floor, frame_index, is_whole, wrap};
use player::{Cold, Fade, Hot, LoopRt};
use program::region::LoopMode;

// What a player is lent: its sample's channels, of which a mono sample has the first alone, and the sinc table.
#[derive(Clone, Copy)]
pub struct Lent<'a> {
    pub a: &'a [f32],
    pub b: Option<&'a [f32]>,
    pub table: &'a [f32; 8194],
}

// A frame of the sample, and what reading it leaves.
#[derive(Drop)]
pub struct Source {
    pub hot: Hot,
    pub heard: Pair<f32>,
}

const SILENT: Pair<f32> = Pair { l: 0.0, r: 0.0 };

// The loop that the player goes round in: one that sustains ends with the release.
pub fn looping(env: Env, mode: LoopMode, lp: Option<LoopRt>) -> Option<LoopRt>
    ensures { result ≡ current_loop env.state mode lp }
{
    match mode {
        LoopMode::NoLoop | LoopMode::OneShot => None,
        LoopMode::Continuous => lp,
        LoopMode::Sustain => {
            if env.released() {
                return None;
            }
            lp
        }
    }
}

// The position in the loop.
#[inline(always)]
pub fn place(lp: Option<LoopRt>, pos: f64) -> f64
    requires { LoopOk lp × Position pos }
    ensures { (result ≡ place_in lp pos) × Position result × Wrapped lp result }
{
    match lp {
        None => pos,
        Some(l) => wrap(pos, l.start, l.end),
    }
}

// Whether the sample has ended at the position p; in a loop it never does.
#[tactic(auto, unfolding(crate::specs::Source::at_end))]
fn at_end(lp: Option<LoopRt>, last: u32, p: f64) -> bool
    ensures { result ≡ at_end lp last p }
{
    lp.is_none() && p >= (last as f64)
}

// Whether the stored frame is read as it is.
#[tactic(auto, unfolding(crate::specs::Source::is_unity))]
fn unity(step: f64, p: f64) -> bool
    requires { Position p }
    ensures { result ≡ is_unity step p }
{
    step == 1.0 && is_whole(p)
}

// Both channels of the stored frame at the position p.
fn stored_frame(lent: Lent<'_>, p: f64) -> Pair<f32>
    requires { Position p }
    ensures { result ≡ stored_at (sound_of lent.entry) p }
{
    let n = (frame_index(p) as usize) + PCM_PAD;
    match lent.b {
        Some(b) => Pair {
            l: frame_at(lent.a, n),
            r: frame_at(b, n),
        },
        None => Pair {
            l: frame_at(lent.a, n),
            r: 0.0,
        },
    }
}

// Both channels at the position p: as stored, as read ahead and kept, or by the kernel.
fn frame(cold: Cold, lent: Lent<'_>, stored: bool, p: f64, kept: Option<Kept>) -> Pair<f32>
    requires { Position p × (cold.span.half ≤ 40) × IfSome kept (Reads cold (sound_of lent)) }
    ensures { result ≡ frame_in cold (sound_of lent.entry) stored p }
{
    if stored {
        return stored_frame(lent, p);
    }
    if let Some(k) = kept {
        if k.at == p {
            return k.heard;
        }
    }
    let kernel = Kernel {
        kind: cold.interp,
        table: lent.table,
        span: cold.span,
    };
    kernel.read_pair(lent.a, lent.b, p)
}

// The same for the frame that a fade brings in: fades are short, and what reads every frame keeps one caller, so that it is compiled
// into the loop over frames. (Reading ahead with two callers took 32 Hermite players 117 microseconds a block beside 98: docs/SPEED.md.)
fn incoming(cold: Cold, lent: Lent<'_>, stored: bool, p: f64) -> Pair<f32>
    requires { Position p × (cold.span.half ≤ 40) }
    ensures { result ≡ frame_in cold (sound_of lent.entry) stored p }
{
    if stored {
        return stored_frame(lent, p);
    }
    let kernel = Kernel {
        kind: cold.interp,
        table: lent.table,
        span: cold.span,
    };
    kernel.read_pair(lent.a, lent.b, p)
}

// From 0 to 1 along half a turn of the cosine.
fn s_curve(x: f32) -> f32
    ensures { result ≡ s_curve x }
{
    0.5 * (1.0 - cos(3.1415927 * clamp_f32(x, 0.0, 1.0)))
}

// Whether the position p lies in the fade of a loop that begins at `start`.
fn in_fade(start: u32, f: Fade, p: f64) -> bool
    requires { Position p }
    ensures { result ≡ in_fade start f p }
{
    // most positions are not, and need no floor
    if p >= (f.start as f64) {
        let idx = floor(p);
        return idx >= (start as f64) && idx >= (f.start as f64);
    }
    false
}

// How far the position p is into the fade.
fn fade_of(f: Fade, p: f64) -> f32
    ensures { result ≡ fade_of f p }
{
    narrow((p - (f.start as f64)) / (f.frames as f64))
}

// The position that comes in at p, a loop's size before, if that is one.
fn behind(l: LoopRt, p: f64) -> Option<f64>
    requires { LoopOk (Some l) × Position p }
    ensures { (result ≡ behind l p) × IfSome result Position }
{
    let q = p - l.size;
    if q >= 0.0 { Some(q) } else { None }
}

// `stored` and the position go hand in hand to both readers: of an enum of ways each would take the same two apart again.
// The frame v goes out, and the one at q, if there is one, comes in.
fn fade(cold: Cold, lent: Lent<'_>, stored: bool, t: f32, q: Option<f64>, v: Pair<f32>) -> Pair<f32>
    requires { IfSome q Position × (cold.span.half ≤ 40) }
    ensures { result ≡ faded cold (sound_of lent.entry) stored t q v }
{
    let g_out = s_curve(1.0 - t);
    let l = v.l * g_out;
    let r = v.r * g_out;
    match q {
        None => Pair { l, r },
        Some(x) => {
            let w = incoming(cold, lent, stored, x);
            let g_in = s_curve(t);
            Pair {
                l: l + g_in * w.l,
                r: r + g_in * w.r,
            }
        }
    }
}

// The frame v, read at the position p, with the loop's fade.
fn crossfade(
    cold: Cold,
    lent: Lent<'_>,
    lp: Option<LoopRt>,
    stored: bool,
    p: f64,
    v: Pair<f32>,
) -> Pair<f32>
    requires { LoopOk lp × Position p × (cold.span.half ≤ 40) }
    ensures { result ≡ crossfaded cold (sound_of lent.entry) lp stored p v }
{
    match lp {
        None => v,
        Some(l) => match l.fade {
            None => v,
            Some(f) => {
                if in_fade(l.start, f, p) {
                    return fade(cold, lent, stored, fade_of(f, p), behind(l, p), v);
                }
                v
            }
        },
    }
}

// One frame of the sample, and the position after it. It may be kept.
pub fn read(hot: Hot, cold: Cold, lent: Lent<'_>, kept: Option<Kept>) -> Source
    requires { ColdOk cold × Position hot.pos × IfSome kept (Reads cold (sound_of lent)) }
    ensures { (result ≡ read_frame cold (sound_of lent.entry) hot) × Position result.hot.pos }
{
    if cold.silent || hot.data_ended {
        return Source { hot, heard: SILENT };
    }
    let lp = looping(hot.env, cold.loop_mode, cold.lp);
    let p = place(lp, hot.pos);
    if at_end(lp, cold.last, p) {
        let ended = Hot {
            pos: p,
            data_ended: true,
            ..hot
        };
        return Source {
            hot: ended,
            heard: SILENT,
        };
    }
    let stored = unity(cold.step, p);
    let v = frame(cold, lent, stored, p, kept);
    let heard = crossfade(cold, lent, lp, stored, p, v);
    let pos = p + cold.step;
    Source {
        hot: Hot { pos, ..hot },
        heard,
    }
}
