// A player's filters, one frame at a time. The states of its six slots stand in one array: slot k has twelve places from
// 12 k on, six for each channel. As [[[f32; 6]; 2]; 6] each write would be three in the clauses, `set s k (set (at s k) r (set ..))`, and
// what a run of frames is proved to leave of a player would carry lists of lists of lists, to save the one bound `base + 5 < 72`. A biquad stage keeps z1 and z2 in two of them, so that three stages fill six; a one-pole
// keeps its last input and output in the first two. A slot has one shape for its life and all states are 0 at its start,
// so the two uses never meet.
#![tactic(auto)]

ghost use Rattle.std.specs.Prelude.{◌≡◌, ◌+◌, ◌*◌, ◌≤◌, ◌<◌, length};
ghost use Rattle.filter.specs.Filter.{stage_at, stages, stage_count, ticked, pair_ticked, chained, AllStages};

use exact::pair::Pair;

// A biquad's coefficients, divided by a0.
#[derive(Clone, Copy)]
pub struct Coefficients {
    pub b0: f32,
    pub b1: f32,
    pub b2: f32,
    pub a1: f32,
    pub a2: f32,
}

#[derive(Clone, Copy)]
pub enum FilterShape {
    Off,
    // y = (1 - p) x + p y1
    Lp1 { p: f32 },
    // y = (1 + p) / 2 (x - x1) + p y1
    Hp1 { p: f32 },
    // One biquad run `stages` times.
    Biquad { c: Coefficients, stages: u8 },
}

// One biquad stage, whose z1 and z2 stand at at and at + 1.
#[tactic(auto, unfolding(crate::specs::Filter::stage_at))]
fn stage(states: &mut [f32; 72], at: usize, c: Coefficients, x: f32) -> f32
    requires { at + 1 < 72 }
    ensures { (record { y = result; states = states.new }) ≡ stage_at c at (record { y = x; states = states.old }) }
{
    let z1 = states[at];
    let z2 = states[at + 1];
    let y = c.b0 * x + z1;
    states[at] = c.b1 * x - c.a1 * y + z2;
    states[at + 1] = c.b2 * x - c.a2 * y;
    y
}

// A biquad run n times, on the places from base on. The loop is over the stages' numbers and no array's places: over chunks of two of the
// states it would take a slice from base on and n of its chunks, where the clause speaks of the whole array.
#[tactic(auto, unfolding(crate::specs::Filter::stages))]
fn biquad(states: &mut [f32; 72], base: usize, c: Coefficients, n: u8, x: f32) -> f32
    requires { (n ≤ 3) × (base + 5 < 72) }
    ensures { (record { y = result; states = states.new }) ≡ stages c base n (record { y = x; states = states.old }) }
{
    let mut v = x;
    for s in 0..usize::from(n) {
        v = stage(states, base + 2 * s, c, v);
    }
    v
}

// One channel of a frame through a slot, whose places for that channel start at base. That it has no more than three stages is asked here
// and above, and is no type's: a player that is lent may have more, and is then refused, so the shape must be able to say so.
// The match over the shapes is one over data with different numbers; a table of steps would have to unpack the same four.
#[tactic(auto, unfolding(crate::specs::Filter::ticked))]
pub fn tick(states: &mut [f32; 72], shape: FilterShape, base: usize, x: f32) -> f32
    requires { (stage_count shape ≤ 3) × (base + 5 < 72) }
    ensures { (record { y = result; states = states.new }) ≡ ticked shape base (record { y = x; states = states.old }) }
{
    match shape {
        FilterShape::Off => x,
        FilterShape::Lp1 { p } => {
            let y1 = states[base + 1];
            let y = (1.0 - p) * x + p * y1;
            states[base] = x;
            states[base + 1] = y;
            y
        }
        FilterShape::Hp1 { p } => {
            let x1 = states[base];
            let y1 = states[base + 1];
            let y = 0.5 * (1.0 + p) * (x - x1) + p * y1;
            states[base] = x;
            states[base + 1] = y;
            y
        }
        FilterShape::Biquad { c, stages } => biquad(states, base, c, stages, x),
    }
}

// A frame through slot k. The right channel of a mono frame passes by.
#[tactic(auto, unfolding(crate::specs::Filter::pair_ticked))]
pub fn tick_pair<const STEREO: bool>(
    states: &mut [f32; 72],
    shape: FilterShape,
    k: usize,
    v: Pair<f32>,
) -> Pair<f32>
    requires { (stage_count shape ≤ 3) × (k < 6) }
    ensures { (record { l = result.l; r = result.r; states = states.new }) ≡ pair_ticked shape k STEREO (record { l = v.l; r = v.r; states = states.old }) }
{
    let l = tick(states, shape, 12 * k, v.l);
    if STEREO {
        let r = tick(states, shape, 12 * k + 6, v.r);
        return Pair { l, r };
    }
    Pair { l, r: v.r }
}

// A frame through slots from the first on, in their order: a region's filters, then its equaliser bands.
#[tactic(auto, unfolding(crate::specs::Filter::chained))]
pub fn chain<const STEREO: bool>(
    states: &mut [f32; 72],
    slots: &[FilterShape],
    v: Pair<f32>,
) -> Pair<f32>
    requires { (length slots.now ≤ 6) × AllStages slots.now }
    ensures { (record { l = result.l; r = result.r; states = states.new }) ≡ chained slots.now STEREO (length slots.now) (record { l = v.l; r = v.r; states = states.old }) }
{
    let mut w = v;
    for (k, shape) in slots.iter().enumerate() {
        w = tick_pair::<STEREO>(states, *shape, k, w);
    }
    w
}
