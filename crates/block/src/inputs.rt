// What a block reads of its inputs and of its off times.
ghost use Rattle.std.specs.Prelude.{◌≡◌, ◌<◌, ◌≤◌, leb, map, min, position};
ghost use Rattle.std.specs.List.{filter, reduce};
ghost use Rattle.std.specs.Option.{option_copied};
ghost use Rattle.session.specs.declared.Off.{Off};
ghost use Rattle.block.specs.Inputs.{Reaches, Struck, signals_of, input_at, gate_at, strike_from, bend_of, off_frame};
ghost use Rattle.block.specs.Block.{off_list, falls_on, swap_removed, turns};
ghost use Rattle.block.specs.Next.{next_gate, next_off, next_event};
ghost use Rattle.block.specs.Ready.{Covers};

use super::BlockTime;
use exact::order::{clamp_f32, is_finite_f32};
use note::Strike;
use session::{Off, Offs};

// The frames of each input; none where it is not connected.
#[derive(Clone, Copy, Default)]
pub struct Inputs<'a> {
    pub freq: Option<&'a [f32]>,
    pub gate: Option<&'a [f32]>,
    pub vel: Option<&'a [f32]>,
    pub amp: Option<&'a [f32]>,
    pub seed: Option<&'a [f32]>,
    pub bend: Option<&'a [f32]>,
    pub quality: Option<&'a [f32]>,
}

// The input's frame i; unconnected, its default: the Rust's `read_input`.
#[tactic(auto, unfolding(crate::specs::Inputs::input_at))]
pub fn input_at(input: Option<&[f32]>, i: usize, default: f32) -> f32
    requires { Reaches (option_copied input) i }
    ensures { result ≡ input_at (option_copied input.entry) i default }
{
    input.map_or(default, |xs| xs[i])
}

// Whether the gate is up on frame i.
#[tactic(auto, unfolding(crate::specs::Inputs::gate_at))]
pub fn gate_at(gate: Option<&[f32]>, i: usize) -> bool
    requires { Reaches (option_copied gate) i }
    ensures { result ≡ gate_at (option_copied gate.entry) i }
{
    0.0 < input_at(gate, i, 1.0)
}

// The bend, held to -1 and 1.
pub fn bend_of(b: f32) -> f32
    ensures { result ≡ bend_of b }
{
    if is_finite_f32(b) {
        clamp_f32(b, -1.0, 1.0)
    } else {
        0.0
    }
}

// The frame that an off time falls on.
#[tactic(auto, unfolding(crate::specs::Inputs::off_frame))]
pub fn off_frame(t: BlockTime, at: u64) -> usize
    ensures { result ≡ off_frame t at }
{
    let past = at.saturating_sub(t.offset) as usize;
    past.min(t.frames.saturating_sub(1))
}

// The off times that it counts.
fn listed(q: &Offs) -> &[Off]
    ensures { result.now ≡ off_list q.now }
{
    &q.offs[..q.count.min(32)]
}

// Where the first off time on frame i stands.
pub fn first_off(t: BlockTime, q: &Offs, i: usize) -> Option<usize>
    ensures { result ≡ position (falls_on t i) (off_list q.now) }
{
    listed(q).iter().position(|o| off_frame(t, o.at) == i)
}

// Takes entry k out; the last entry moves into its place.
#[tactic(auto, unfolding(crate::specs::Block::swap_removed))]
pub fn swap_remove(q: &mut Offs, k: usize)
    requires { (k < q.old.count) × (q.old.count ≤ 32) }
    ensures { q.new ≡ swap_removed k q.old }
{
    q.count -= 1;
    q.offs[k] = q.offs[q.count];
}

// The inputs on the frame i of a rising gate, at the time `at`.
#[tactic(auto, unfolding(crate::specs::Inputs::strike_from))]
pub fn strike_at(inputs: Inputs<'_>, i: usize, at: u64) -> Strike
    requires { Struck (signals_of inputs) i }
    ensures { result ≡ strike_from (signals_of inputs.entry) i at }
{
    let f = input_at(inputs.freq, i, 261.625_58);
    // 100 / 127
    let v = input_at(inputs.vel, i, 0.787_401_56);
    let s = input_at(inputs.seed, i, 0.0);
    Strike {
        freq: f,
        vel: v,
        seed: s,
        quality: inputs.quality.map(|q| q[i]),
        at,
    }
}

// Whether the gate, which was `prev`, turns where it is g.
pub fn gate_turns(prev: bool, g: bool) -> bool
    ensures { result ≡ turns prev g }
{
    if g { !prev } else { prev }
}

// The first frame from `from` to n on which the gate is not as before.
#[tactic(auto, unfolding(crate::specs::Next::next_gate))]
pub fn next_gate(prev: bool, gate: Option<&[f32]>, from: usize, n: usize) -> Option<usize>
    requires { Covers (option_copied gate) n }
    ensures { result ≡ next_gate prev (option_copied gate.entry) from n }
{
    (from..n).find(|i| gate_turns(prev, gate_at(gate, *i)))
}

// The least frame from `from` on that one of the off times falls on.
fn least_frame(t: BlockTime, offs: &[Off], from: usize) -> Option<usize>
    ensures { result ≡ reduce min (filter (leb from) (map (λ (o : Off). off_frame t o.at) offs.now)) }
{
    offs.iter()
        .map(|o| off_frame(t, o.at))
        .filter(|f| from <= *f)
        .min()
}

// The first frame from `from` on that an off time falls on.
fn next_off(t: BlockTime, q: &Offs, from: usize) -> Option<usize>
    requires { 0 < t.frames }
    ensures { result ≡ next_off t q.now from }
{
    least_frame(t, listed(q), from)
}

// The first frame from `from` on with an event, or the block's length: the frames before it only sound. A bound and no option, since
// its caller sounds up to it at once and would make the length of a None first; and its parts stay apart, since from one event to the
// next `q` and `prev` change, and `t` and `gate` do not.
#[tactic(auto, using(crate::proofs::Firsts::first_event))]
pub fn next_event(t: BlockTime, q: &Offs, prev: bool, gate: Option<&[f32]>, from: usize) -> usize
    requires { (0 < t.frames) × (from ≤ t.frames) × Covers (option_copied gate) t.frames }
    ensures { result ≡ next_event t q.now prev (option_copied gate.entry) from }
{
    let off = next_off(t, q, from).unwrap_or(t.frames);
    let edge = next_gate(prev, gate, from, t.frames).unwrap_or(t.frames);
    off.min(edge)
}
