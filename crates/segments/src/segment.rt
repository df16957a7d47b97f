// A player's frames between two events, added to a part of each output.
ghost use Rattle.std.specs.Prelude.{◌≡◌, false, ◌<◌, ◌≤◌, ◌+◌, length, get_or, IfSome, OnSome};
ghost use Rattle.filter.specs.Filter.{AllStages, chained};
ghost use Rattle.interp.specs.Position.{Position};
ghost use Rattle.player.specs.Bounds.{ColdOk, PlayerOk};
ghost use Rattle.segments.specs.Source.{sound_of};
ghost use Rattle.segments.specs.Ahead.{Reads, AllRead};
ghost use Rattle.segments.specs.Segment.{ends_now, fast_off, frame_after, frame_next, hot_of, added, share, run_for, after_run, went_off, played_by};

use super::ahead::{Kept, ahead, suits};
use super::plain::play_plain;
use super::source::{Lent, Source, read};
use exact::pair::Pair;
use filter::{FilterShape, chain};
use player::{Cold, Hot, Player};

// A frame before the filters: the envelope's value, and both channels.
#[derive(Drop)]
pub struct Frame {
    pub hot: Hot,
    pub value: f32,
    pub heard: Pair<f32>,
}

// What a step brings: the envelope is done, or a frame.
#[derive(Drop)]
pub enum Turn {
    Over(Hot),
    Sounds(Frame),
}

// A player after a segment, and whether its data ended in it.
#[derive(Drop)]
pub struct Played {
    pub player: Player,
    pub ended: bool,
}

// Whether this frame has ended the data of a player that is not off yet.
#[tactic(auto, unfolding(crate::specs::Segment::ends_now))]
fn ends_now(was: bool, h: Hot) -> bool
    ensures { result ≡ ends_now was h }
{
    h.data_ended && !was && !h.offed
}

// sfizz's fast off: 6 ms.
#[tactic(auto, unfolding(crate::specs::Segment::fast_off))]
fn fast_off(h: Hot) -> Hot
    ensures { result ≡ fast_off h }
{
    let timed = h.env.set_release_time(6e-3);
    let released = timed.release();
    Hot {
        env: released,
        offed: true,
        ..h
    }
}

// The frame that was read, at the envelope's value; the end of the data begins a fast release.
fn frame_after(value: f32, was: bool, v: Source) -> Frame
    ensures { result ≡ frame_after value was v }
{
    let h = v.hot;
    let hot = if ends_now(was, h) { fast_off(h) } else { h };
    Frame {
        hot,
        value,
        heard: v.heard,
    }
}

// The next frame: the envelope's step first; during the delay the data wait.
fn next_frame(hot: Hot, cold: Cold, lent: Lent<'_>, kept: Option<Kept>) -> Turn
    requires { ColdOk cold × Position hot.pos × IfSome kept (Reads cold (sound_of lent)) }
    ensures { (result ≡ frame_next cold (sound_of lent.entry) hot) × Position (hot_of result).pos }
{
    let s = hot.env.next();
    let h = Hot { env: s.env, ..hot };
    if h.env.done() {
        return Turn::Over(h);
    }
    let d = hot.data_delay;
    if d > 0 {
        return Turn::Sounds(Frame {
            hot: Hot {
                env: s.env,
                data_delay: d - 1,
                ..hot
            },
            value: s.value,
            heard: Pair { l: 0.0, r: 0.0 },
        });
    }
    let v = read(h, cold, lent, kept);
    Turn::Sounds(frame_after(s.value, hot.data_ended, v))
}

// What one output gets of a frame.
pub fn share_of(g: f32, x: f32, y: f32, v: Pair<f32>) -> f32
    ensures { result ≡ share g x y v.l v.r }
{
    g * (x * v.l + y * v.r)
}

pub fn add_at(out: &mut [f32], j: usize, x: f32)
    requires { j < length out.old }
    ensures { out.new ≡ added out.old j x }
{
    out[j] = out[j] + x;
}

// Where the frames end that are read ahead before frame j of n.
fn chunk_end(j: usize, n: usize) -> usize
    requires { j ≤ n }
    ensures { (result ≤ n) × (result ≤ j + 64) × (j < n → j < result) × (j ≤ result) }
{
    j + (n - j).min(64)
}

// The frame that is kept in a place, of so many.
fn kept_at(kept: &[Kept; 64], count: usize, at: usize) -> Option<Kept>
    requires { count ≤ 64 }
    ensures { IfSome result (λ k. (at < count) × ((d : Kept) → k ≡ get_or kept.now at d)) }
{
    if at < count { Some(kept[at]) } else { None }
}

// Through the filters, both channels or the first alone.
fn filtered(
    states: &mut [f32; 72],
    filters: &[FilterShape],
    stereo: bool,
    v: Pair<f32>,
) -> Pair<f32>
    requires { (length filters.now ≤ 6) × AllStages filters.now }
    ensures { (record { l = result.l; r = result.r; states = states.new }) ≡ chained filters.now stereo (length filters.now) (record { l = v.l; r = v.r; states = states.old }) }
{
    if stereo {
        chain::<true>(states, filters, v)
    } else {
        chain::<false>(states, filters, v)
    }
}

// As many frames as both outputs have, added to them; they end early where the envelope is done. Up to 64 at a time are read ahead where
// that can be. Reading ahead stands outside the loop over frames and is handed copies, so that the compiler leaves `h` and `cold` in
// registers there; so they stay two values, and no struct that would copy `cold` with each `h`. The outer loop is a cursor, which plain frames
// and chunks move by as many as they played.
fn frames(
    hot: Hot,
    cold: Cold,
    slots: [FilterShape; 6],
    states: &mut [f32; 72],
    lent: Lent<'_>,
    out_l: &mut [f32],
    out_r: &mut [f32],
) -> Hot
    requires { ColdOk cold × AllStages slots × Position hot.pos × (length out_r.old ≡ length out_l.old) }
    ensures { ((record { hot = result; states = states.new; left = out_l.new; right = out_r.new }) ≡ after_run (run_for cold slots (sound_of lent.entry) (length out_l.old) (record { hot = hot; states = states.old; left = out_l.old; right = out_r.old; done = false }))) × Position result.pos }
{
    let n = out_l.len();
    let mut kept = [Kept {
        at: 0.0,
        heard: Pair { l: 0.0, r: 0.0 },
    }; 64];
    let suited = suits(cold, lent);
    let filters = &slots[..cold.n_filters as usize];
    let mut h = hot;
    let mut j = 0usize;
    while j < n {
        let was = h;
        let same = cold;
        let rested = play_plain(was, same, lent.a, lent.b, out_l, out_r, j);
        h.pos = rested.pos;
        j = rested.next;
        let mut count = 0usize;
        if suited {
            let g = h;
            let c = cold;
            count = ahead(g, c, lent, n - j, &mut kept);
        }
        let stop = chunk_end(j, n);
        for at in 0..stop - j {
            let k = kept_at(&kept, count, at);
            let f = match next_frame(h, cold, lent, k) {
                Turn::Over(g) => return g,
                Turn::Sounds(f) => f,
            };
            h = f.hot;
            let v = filtered(states, filters, cold.stereo, f.heard);
            let gain = cold.gain * f.value;
            let m = cold.matrix;
            add_at(out_l, j + at, share_of(gain, m.ll, m.rl, v));
            add_at(out_r, j + at, share_of(gain, m.lr, m.rr, v));
        }
        j = stop;
    }
    h
}

// Whether a player has gone off: in a segment only the end of its data does that.
fn went_off(before: bool, after: bool) -> bool
    ensures { result ≡ went_off before after }
{
    !before && after
}

// A segment of a player: the frames of both outputs' lent parts.
pub fn play(p: Player, lent: Lent<'_>, left: &mut [f32], right: &mut [f32]) -> Played
    requires { PlayerOk p × (length right.old ≡ length left.old) }
    ensures { ((record { played = result; left = left.new; right = right.new }) ≡ played_by (sound_of lent.entry) p left.old right.old) × PlayerOk result.player }
{
    let hot = p.hot;
    let mut states = p.states;
    let h = frames(hot, p.cold, p.slots, &mut states, lent, left, right);
    let ended = went_off(hot.offed, h.offed);
    Played {
        player: Player {
            hot: h,
            states,
            ..p
        },
        ended,
    }
}
