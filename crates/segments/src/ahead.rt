// Sinc frames read ahead, four at a time: the same tap of four frames is done side by side. A frame is kept with its position,
// and whoever reads a frame looks its position up first, so that a guess of the positions can be wrong and costs only time.
ghost use Rattle.std.specs.Prelude.{◌≡◌, ◌+◌, ◌≤◌, ◌<◌, length};
ghost use Rattle.std.specs.Float.Ieee.{lt, to_unsigned};
ghost use Rattle.exact.specs.Order.{magnitude};
ghost use Rattle.exact.specs.Single.{single, ◌⊖◌, ◌⊗◌, f1, f16};
ghost use Rattle.interp.specs.Position.{Position};
ghost use Rattle.player.specs.Bounds.{Step, LoopOk, ColdOk};
ghost use Rattle.segments.specs.Source.{sound_of};
ghost use Rattle.segments.specs.Ahead.{is_even, is_suited, Suited, is_inner, all_inner, Positions, AllInner, AllRead, kept_from, are_alike, as_last, PlacedBy};

use super::source::{Lent, looping, place};
use exact::order::abs_f32;
use exact::pair::Pair;
use interp::Interp;
use interp::position::{fraction, frame_index};
use lanes::four::{Four, Starts, sinc_four};
use lanes::places::Places;
use player::{Cold, Hot, LoopRt};

// A frame that was read ahead, and the position that it was read at.
#[derive(Clone, Copy)]
pub struct Kept {
    pub at: f64,
    pub heard: Pair<f32>,
}

// Four positions, each a step after the one before.
#[derive(Clone, Copy)]
pub struct Next {
    pub p0: f64,
    pub p1: f64,
    pub p2: f64,
    pub p3: f64,
}

// Whether every tap of a kernel but the first and the last is in the window, as reading four at a time asks.
fn reaches(half: u16, fc: f32) -> bool
    ensures { result ≡ lt (magnitude ((single half ⊖ f1) ⊗ fc)) f16 }
{
    abs_f32(((half as f32) - 1.0) * fc) < 16.0
}

// Whether two channels have the same frames.
fn is_even(lent: Lent<'_>) -> bool
    ensures { result ≡ is_even (sound_of lent.entry) }
{
    match lent.b {
        Some(b) => b.len() == lent.a.len(),
        None => true,
    }
}

// Whether a player's frames can be read ahead. At a step of 1.0 most are read as stored, and reading them ahead is no use.
#[tactic(auto, unfolding(crate::specs::Ahead::is_suited))]
pub fn suits(cold: Cold, lent: Lent<'_>) -> bool
    ensures { result ≡ is_suited cold (sound_of lent.entry) }
{
    !cold.silent
        && cold.step != 1.0
        && matches!(cold.interp, Interp::Sinc)
        && cold.span.half >= 2
        && is_even(lent)
        && reaches(cold.span.half, cold.span.fc)
}

// Whether the sample has every frame that the kernel draws on at p. A method of the span would still be handed both lengths.
fn inner(p: f64, half: usize, len: usize) -> bool
    requires { Position p × (half ≤ 40) }
    ensures { result ≡ is_inner p half len }
{
    let t = frame_index(p) as usize;
    t + 1 >= half && t + half < len
}

// The frame of the first tap at p.
fn start_at(p: f64, half: usize) -> usize
    requires { Position p × (half ≤ to_unsigned 64 p + 1) }
    ensures { result + half ≡ to_unsigned 64 p + 1 }
{
    (frame_index(p) as usize) + 1 - half
}

// Each asks for a sound loop, since the loop is found anew at every frame: a release can end it.
// The position after p. One past 2^32, where no sample has a frame, stays, so that the sum is a position.
fn after(lp: Option<LoopRt>, p: f64, step: f64) -> f64
    requires { LoopOk lp × Position p × Step step }
    ensures { Position result }
{
    if p <= 4294967296.0 {
        return place(lp, p + step);
    }
    p
}

// The four positions from p on.
fn nexts(lp: Option<LoopRt>, p: f64, step: f64) -> Next
    requires { LoopOk lp × Position p × Step step }
    ensures { Positions result }
{
    let p1 = after(lp, p, step);
    let p2 = after(lp, p1, step);
    let p3 = after(lp, p2, step);
    Next { p0: p, p1, p2, p3 }
}

// Whether all four are inner ones.
fn inside(x: Next, half: usize, len: usize) -> bool
    requires { Positions x × (half ≤ 40) }
    ensures { result ≡ all_inner x half len }
{
    inner(x.p0, half, len)
        && inner(x.p1, half, len)
        && inner(x.p2, half, len)
        && inner(x.p3, half, len)
}

// The frames (l, r) of four positions are kept, from place `at` on.
fn keep_four(kept: &mut [Kept; 64], at: usize, x: Next, l: Four, r: Four)
    requires { at + 4 ≤ 64 }
    ensures { kept.new ≡ kept_from at x l r kept.old }
{
    kept[at] = Kept {
        at: x.p0,
        heard: Pair { l: l.x0, r: r.x0 },
    };
    kept[at + 1] = Kept {
        at: x.p1,
        heard: Pair { l: l.x1, r: r.x1 },
    };
    kept[at + 2] = Kept {
        at: x.p2,
        heard: Pair { l: l.x2, r: r.x2 },
    };
    kept[at + 3] = Kept {
        at: x.p3,
        heard: Pair { l: l.x3, r: r.x3 },
    };
}

// Whether four parts test as four others.
fn same(f: Four, g: Four) -> bool
    ensures { result ≡ are_alike f g }
{
    f.x0 == g.x0 && f.x1 == g.x1 && f.x2 == g.x2 && f.x3 == g.x3
}

// Whether they test as the last four, if there are any.
fn as_last(f: Four, last: Option<Four>) -> bool
    ensures { result ≡ as_last f last }
{
    match last {
        Some(g) => same(f, g),
        None => false,
    }
}

// The frames of four positions are read and kept, from place `at` on. Where they lie as far behind their frames as the last
// four did, at steps such as 2.0 or 0.5, the places of their taps are there already.
fn four(
    x: Next,
    cold: Cold,
    lent: Lent<'_>,
    places: &mut Places,
    kept: &mut [Kept; 64],
    at: usize,
    last: Option<Four>,
) -> Four
    requires { Positions x × AllInner x cold.span.half (length (sound_of lent).a) × Suited cold (sound_of lent) × (at + 4 ≤ 64) × AllRead cold (sound_of lent) at kept.old × PlacedBy cold.span last places.old.entries places.old.parts }
    ensures { AllRead cold (sound_of lent.entry) (at + 4) kept.new × PlacedBy cold.span (Some result) places.new.entries places.new.parts }
{
    let span = cold.span;
    let h = span.half as usize;
    let n = Starts {
        n0: start_at(x.p0, h),
        n1: start_at(x.p1, h),
        n2: start_at(x.p2, h),
        n3: start_at(x.p3, h),
    };
    let f = Four {
        x0: fraction(x.p0),
        x1: fraction(x.p1),
        x2: fraction(x.p2),
        x3: fraction(x.p3),
    };
    let placed = as_last(f, last);
    match lent.b {
        Some(b) => {
            let v = sinc_four(
                lent.table,
                Pair { l: lent.a, r: b },
                span,
                n,
                f,
                placed,
                places,
            );
            let l = v.l;
            let r = v.r;
            keep_four(kept, at, x, l, r);
        }
        None => {
            let l = sinc_four(lent.table, lent.a, span, n, f, placed, places);
            let r = Four {
                x0: 0.0,
                x1: 0.0,
                x2: 0.0,
                x3: 0.0,
            };
            keep_four(kept, at, x, l, r);
        }
    }
    f
}

// How many fours are read ahead of m frames.
fn fours_in(m: usize) -> usize
    ensures { result ≤ 16 }
{
    m.min(64) / 4
}

// The next frames of a player are kept, and how many: 64, or as many fours as m frames have, as far as they are inner ones. A release on
// the way, which can end the loop, leaves the rest unread.
pub fn ahead(hot: Hot, cold: Cold, lent: Lent<'_>, m: usize, kept: &mut [Kept; 64]) -> usize
    requires { ColdOk cold × Position hot.pos × Suited cold (sound_of lent) × (length kept.old ≡ 64) }
    ensures { (result ≤ 64) × AllRead cold (sound_of lent.entry) result kept.new }
{
    if hot.data_ended || hot.data_delay > 0 {
        return 0;
    }
    let mut places = Places::new();
    let lp = looping(hot.env, cold.loop_mode, cold.lp);
    let mut p = place(lp, hot.pos);
    let h = cold.span.half as usize;
    let mut last: Option<Four> = None;
    let fours = fours_in(m);
    for k in 0..fours {
        let x = nexts(lp, p, cold.step);
        if !inside(x, h, lent.a.len()) {
            return 4 * k;
        }
        last = Some(four(x, cold, lent, &mut places, kept, 4 * k, last));
        p = after(lp, x.p3, cold.step);
    }
    4 * fours
}
