// Frames that are read as they are stored, under an envelope that rests and through no filter: a hit at its own pitch from its attack to its
// release, the usual player. Many of them are added to both outputs at once, and the position moves once for all.
ghost use Rattle.std.specs.Prelude.{◌≡◌, List, ℕ, pos, ◌≤◌, ◌<◌, ◌+◌, Float, Option, length, IfSome, option_map};
ghost use Rattle.std.specs.Int.Signed.{lt_z};
ghost use Rattle.exact.specs.Single.{f0};
ghost use Rattle.interp.specs.Position.{Position, double};
ghost use Rattle.player.specs.Bounds.{ColdOk};
ghost use Rattle.segments.specs.Plain.{is_resting, is_steady, is_plain, is_silent, plain_end, FadeSmall, Reaches, second_at, added_run, plain_share, Goes};

use super::segment::{add_at, share_of};
use super::source::looping;
use envelope::{EgState, Env};
use exact::pair::Pair;
use interp::position::frame_index;
use player::{Cold, Hot, LoopRt};

// After a run of frames: the position, which is all that they change of the player, and the frame after them.
#[derive(Drop)]
pub struct Rested {
    pub pos: f64,
    pub next: usize,
}

// In its sustain, at or below its level, an envelope stays as it is.
#[tactic(auto, unfolding(crate::specs::Plain::is_resting))]
fn rests(e: Env) -> bool
    ensures { result ≡ is_resting e }
{
    matches!(e.state, EgState::Sustain) && !e.free_running && !(e.value > e.sustain)
}

fn delays(h: Hot) -> bool
    ensures { result ≡ lt_z (pos 0) h.data_delay }
{
    h.data_delay > 0
}

// No delay is left, no filter is there and the envelope rests.
#[tactic(auto, unfolding(crate::specs::Plain::is_steady))]
fn is_steady(h: Hot, c: Cold) -> bool
    ensures { result ≡ is_steady c h }
{
    c.n_filters == 0 && !delays(h) && rests(h.env)
}

// Whether the frames to come are stored ones, as long as the position is whole and lies before the end of the run.
#[tactic(auto, unfolding(crate::specs::Plain::is_plain))]
fn is_plain(h: Hot, c: Cold) -> bool
    ensures { result ≡ is_plain c h }
{
    c.step == 1.0 && !c.silent && !h.data_ended && is_steady(h, c)
}

// The frame that a position is, if it is one; the first is left out.
fn whole_frame(pos: f64) -> Option<usize>
    requires { Position pos }
    ensures { IfSome result (λ m. (0 < m) × (m ≤ 8589934592) × (pos ≡ double m)) }
{
    let f = frame_index(pos);
    if f > 0 && pos == (f as f64) {
        return Some(f as usize);
    }
    None
}

// Where plain frames end: where the sample does, or where the loop turns back or its fade begins.
fn plain_end(lp: Option<LoopRt>, last: u32) -> usize
    ensures { (result ≡ plain_end lp last) × FadeSmall lp }
{
    match lp {
        None => last as usize,
        Some(l) => {
            let end = (l.end as usize) + 1;
            match l.fade {
                None => end,
                Some(f) => end.min(f.start as usize),
            }
        }
    }
}

// How many frames every channel has.
fn channel_len(a: &[f32], b: Option<&[f32]>) -> usize
    ensures { Reaches a.now (option_map (λ s. s.now) b.entry) result }
{
    match b {
        Some(b) => a.len().min(b.len()),
        None => a.len(),
    }
}

// How many of n frames from frame p on lie before the end of the run and in every channel.
fn plain_count(end: usize, len: usize, p: usize, n: usize) -> usize
    ensures { (result ≤ n) × (0 < result → (p + result ≤ end) × (p + result ≤ len)) }
{
    end.min(len).saturating_sub(p).min(n)
}

// Frame q of the second channel; a mono sample has none.
fn second_at(b: Option<&[f32]>, q: usize) -> f32
    requires { IfSome (option_map (λ s. s.now) b) (λ xs. q < length xs) }
    ensures { result ≡ second_at (option_map (λ s. s.now) b.entry) q }
{
    match b {
        Some(b) => b[q],
        None => 0.0,
    }
}

// k stored frames from frame p on, each by its share, added to an output from frame j on. It counts places, as the run of frames in its clause
// does: of slices cut for it each call would have to put its output together again.
fn add_plain(
    out: &mut [f32],
    j: usize,
    k: usize,
    a: &[f32],
    b: Option<&[f32]>,
    p: usize,
    g: f32,
    x: f32,
    y: f32,
)
    requires { (j + k ≤ length out.old) × Reaches a.now (option_map (λ s. s.now) b) (p + k) }
    ensures { out.new ≡ added_run (plain_share g x y a.now (option_map (λ s. s.now) b.entry) p) j k out.old }
{
    for i in 0..k {
        let l = a[p + i];
        let r = second_at(b, p + i);
        add_at(out, j + i, share_of(g, x, y, Pair { l, r }));
    }
}

// A loop of its own: of one with a closure each caller would have to show that it may be called, and what it adds.
// The same value added to k frames of an output from frame j on.
fn add_same(out: &mut [f32], j: usize, k: usize, v: f32)
    requires { j + k ≤ length out.old }
    ensures { out.new ≡ added_run (λ (i : ℕ). v) j k out.old }
{
    for i in 0..k {
        add_at(out, j + i, v);
    }
}

// Whether the frames to come are silence under an envelope that rests: they add what the gain makes of 0.0.
#[tactic(auto, unfolding(crate::specs::Plain::is_silent))]
fn is_silent(h: Hot, c: Cold) -> bool
    ensures { result ≡ is_silent c h }
{
    c.silent && is_steady(h, c)
}

// All frames from j on, where they are silence, whatever the channels.
fn play_silent(h: Hot, c: Cold, out_l: &mut [f32], out_r: &mut [f32], j: usize) -> Rested
    requires { Position h.pos × (j ≤ length out_l.old) × (length out_r.old ≡ length out_l.old) }
    ensures { (a : List Float) (b : Option (List Float)) → Goes c h a b j out_l.old out_r.old result out_l.new out_r.new }
{
    let n = out_l.len();
    if !is_silent(h, c) {
        return Rested {
            pos: h.pos,
            next: j,
        };
    }
    let gain = c.gain * h.env.value;
    let none = Pair { l: 0.0, r: 0.0 };
    let m = c.matrix;
    add_same(out_l, j, n - j, share_of(gain, m.ll, m.rl, none));
    add_same(out_r, j, n - j, share_of(gain, m.lr, m.rr, none));
    Rested {
        pos: h.pos,
        next: n,
    }
}

// As many of the frames from j on as are plain ones.
fn play_stored(
    h: Hot,
    c: Cold,
    a: &[f32],
    b: Option<&[f32]>,
    out_l: &mut [f32],
    out_r: &mut [f32],
    j: usize,
) -> Rested
    requires { ColdOk c × Position h.pos × (j ≤ length out_l.old) × (length out_r.old ≡ length out_l.old) }
    ensures { Goes c h a.now (option_map (λ s. s.now) b.entry) j out_l.old out_r.old result out_l.new out_r.new }
{
    let none = Rested {
        pos: h.pos,
        next: j,
    };
    if !is_plain(h, c) {
        return none;
    }
    let Some(p) = whole_frame(h.pos) else {
        return none;
    };
    let end = plain_end(looping(h.env, c.loop_mode, c.lp), c.last);
    let k = plain_count(end, channel_len(a, b), p, out_l.len() - j);
    if k == 0 {
        return none;
    }
    let gain = c.gain * h.env.value;
    let m = c.matrix;
    add_plain(out_l, j, k, a, b, p, gain, m.ll, m.rl);
    add_plain(out_r, j, k, a, b, p, gain, m.lr, m.rr);
    Rested {
        pos: (p + k) as f64,
        next: j + k,
    }
}

// Two cases of one promise. Both outputs stay two slices: a struct of two `&mut` that lends a part of each got no proof.
// As many of the frames from j on as are stored ones, or silence, under an envelope that rests.
pub fn play_plain(
    h: Hot,
    c: Cold,
    a: &[f32],
    b: Option<&[f32]>,
    out_l: &mut [f32],
    out_r: &mut [f32],
    j: usize,
) -> Rested
    requires { ColdOk c × Position h.pos × (j ≤ length out_l.old) × (length out_r.old ≡ length out_l.old) }
    ensures { Goes c h a.now (option_map (λ s. s.now) b.entry) j out_l.old out_r.old result out_l.new out_r.new }
{
    if c.silent {
        return play_silent(h, c, out_l, out_r, j);
    }
    play_stored(h, c, a, b, out_l, out_r, j)
}
