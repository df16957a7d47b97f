// Four frames of a sample by the windowed sinc. The same tap of all four is done side by side, which the machine does in one
// operation each; every frame's sums are those of `sinc`, in the same order.
ghost use Rattle.std.specs.Prelude.{◌≡◌, Bool, true, cond, ◌+◌, ◌*◌, ◌≤◌, ◌<◌, length};
ghost use Rattle.lanes.specs.declared.four.Four.{Four};
ghost use Rattle.lanes.specs.Four.{Lanes, Inside, Parts, InFrames, Rows, summed, weighted, read_at, no_lanes, means_of, sinc_four};
ghost use Rattle.lanes.specs.NoSums.{no_sums_mono, no_sums_pair};

use crate::places::Places;
use exact::pair::Pair;
use interp::channels::{Channels, mean};
use interp::sinc::SincSpan;

// Names and not [f32; 4], here and in `Starts`: over lists the clauses would read `get_or t.w 0 nan` for `t.w.x0`, in each of the definitions
// of specs/Four, and owe that every list has four.
#[derive(Clone, Copy, Default)]
pub struct Four {
    pub x0: f32,
    pub x1: f32,
    pub x2: f32,
    pub x3: f32,
}

// The frames that the first taps stand at.
#[derive(Clone, Copy)]
pub struct Starts {
    pub n0: usize,
    pub n1: usize,
    pub n2: usize,
    pub n3: usize,
}

// What a tap of the four adds: a weight for each, where it lies in the window.
#[derive(Clone, Copy)]
pub struct Tap {
    pub w: Four,
    pub in0: bool,
    pub in1: bool,
    pub in2: bool,
    pub in3: bool,
}

// The sums of four frames, of one channel or of two, which have the same weights.
#[derive(Clone, Copy, Default)]
pub struct Sums<T> {
    pub acc: T,
    pub wsum: Four,
}

// One of two that are both made: with each sum under a test of its own, 32 stereo players took 5 % more time (see `Places`).
fn pick(c: bool, x: f32, y: f32) -> f32
    ensures { result ≡ cond c x y }
{
    if c {
        return x;
    }
    y
}

impl Four {
    // On top of these x by the weights, and x in the window alone. Both are made and one is picked, float by float.
    fn more(self, t: Tap, x: Four) -> Four
        ensures { result ≡ summed t x self }
    {
        Four {
            x0: pick(t.in0, self.x0 + t.w.x0 * x.x0, self.x0),
            x1: pick(t.in1, self.x1 + t.w.x1 * x.x1, self.x1),
            x2: pick(t.in2, self.x2 + t.w.x2 * x.x2, self.x2),
            x3: pick(t.in3, self.x3 + t.w.x3 * x.x3, self.x3),
        }
    }

    // On top of these the weights.
    fn heavier(self, t: Tap) -> Four
        ensures { result ≡ weighted t self }
    {
        Four {
            x0: pick(t.in0, self.x0 + t.w.x0, self.x0),
            x1: pick(t.in1, self.x1 + t.w.x1, self.x1),
            x2: pick(t.in2, self.x2 + t.w.x2, self.x2),
            x3: pick(t.in3, self.x3 + t.w.x3, self.x3),
        }
    }

    // These over the sums of the weights.
    #[tactic(auto, unfolding(crate::specs::Four::means_of))]
    fn over(self, wsum: Four) -> Four
        ensures { result ≡ means_of self wsum }
    {
        Four {
            x0: mean(self.x0, wsum.x0),
            x1: mean(self.x1, wsum.x1),
            x2: mean(self.x2, wsum.x2),
            x3: mean(self.x3, wsum.x3),
        }
    }
}

// The frames of tap k.
fn frames_of(frames: &[f32], n: Starts, k: usize) -> Four
    requires { InFrames n (k + 1) frames.now }
    ensures { result ≡ read_at frames.now n k }
{
    Four {
        x0: frames[n.n0 + k],
        x1: frames[n.n1 + k],
        x2: frames[n.n2 + k],
        x3: frames[n.n3 + k],
    }
}

// Channels that are read four frames at a time. A tap takes the frames and where each of the four starts: as four slices cut once they are
// eight words a channel where this is two and the starts, and both channels have the same starts.
pub trait FourChannels: Channels {
    // The sums for each channel, and what is read of it.
    type Sums: Copy + Default;

    type Fours: Drop;

    ghost lanes: { Self.Sums → Bool → Lanes };

    ghost four: { Self.Fours → Bool → Four };

    // Tap k of all four on top of the sums s.
    fn tapped(self, s: Self::Sums, t: Tap, n: Starts, k: usize) -> Self::Sums
        requires { (right : Bool) → InFrames n (k + 1) (Self.frames self right) }
        ensures { (right : Bool) → lanes result right ≡ record { acc = summed t (read_at (Self.frames self right) n k) (lanes s right).acc; wsum = weighted t (lanes s right).wsum } };

    fn means(self, s: Self::Sums) -> Self::Fours
        ensures { (right : Bool) → four result right ≡ means_of (lanes s right).acc (lanes s right).wsum };

    // Sums of nothing.
    ghost no_sums: { (s : Self.Sums) (right : Bool) → Self.Sums.is_default s → lanes s right ≡ no_lanes };
}

impl<'a> FourChannels for &'a [f32] {
    type Sums = Sums<Four>;

    type Fours = Four;

    ghost lanes = { λ s right. record { acc = s.acc; wsum = s.wsum } };

    ghost four = { λ x right. x };

    fn tapped(self, s: Sums<Four>, t: Tap, n: Starts, k: usize) -> Sums<Four> {
        Sums {
            acc: s.acc.more(t, frames_of(self, n, k)),
            wsum: s.wsum.heavier(t),
        }
    }

    fn means(self, s: Sums<Four>) -> Four {
        s.acc.over(s.wsum)
    }

    ghost no_sums = { λ s right e. no_sums_mono s e };
}

impl<'a> FourChannels for Pair<&'a [f32]> {
    type Sums = Sums<Pair<Four>>;

    type Fours = Pair<Four>;

    ghost lanes = { λ s right. record { acc = cond right s.acc.r s.acc.l; wsum = s.wsum } };

    ghost four = { λ x right. cond right x.r x.l };

    fn tapped(self, s: Sums<Pair<Four>>, t: Tap, n: Starts, k: usize) -> Sums<Pair<Four>> {
        Sums {
            acc: Pair {
                l: s.acc.l.more(t, frames_of(self.l, n, k)),
                r: s.acc.r.more(t, frames_of(self.r, n, k)),
            },
            wsum: s.wsum.heavier(t),
        }
    }

    fn means(self, s: Sums<Pair<Four>>) -> Pair<Four> {
        Pair {
            l: s.acc.l.over(s.wsum),
            r: s.acc.r.over(s.wsum),
        }
    }

    ghost no_sums = { λ s right e. no_sums_pair right s e };
}

// Four frames of each channel: frame i's first tap stands at n, and f is how far it lies behind its frame. The places are lent so
// that many calls share them; what they are before does not matter, unless those of these taps are said to be there already. The caller
// says it, who knows the parts of the four before: kept in `Places` they would be the same test and the same `None` at first, and each
// clause on the lists would be one on lists, span and parts.
pub fn sinc_four<C: FourChannels>(
    table: &[f32; 8194],
    channels: C,
    span: SincSpan,
    n: Starts,
    f: Four,
    placed: bool,
    places: &mut Places,
) -> C::Fours
    requires { Inside span × Parts f × ((right : Bool) → InFrames n (2 * span.half) (C.frames channels right)) × ((placed ≡ true) → Rows span f places.old.entries places.old.parts (2 * span.half)) }
    ensures { ((right : Bool) → C.four result right ≡ sinc_four table.now (C.frames channels right) span n f) × Rows span f places.new.entries places.new.parts (2 * span.half) }
{
    places.put_unless(placed, span, f);
    let last = 2 * (span.half as usize) - 1;
    let mut s = channels.tapped(C::Sums::default(), places.tap::<true>(table, 0), n, 0);
    let h = span.half as usize;
    // Two taps a turn halve the loop's own work: with one a stereo sinc player took 0.58 of the Rust's time.
    for j in 1..h {
        let k = 2 * j;
        let q = channels.tapped(s, places.tap::<false>(table, k - 1), n, k - 1);
        s = channels.tapped(q, places.tap::<false>(table, k), n, k);
    }
    let t = channels.tapped(s, places.tap::<true>(table, last), n, last);
    channels.means(t)
}
