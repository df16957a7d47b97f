// What a kernel reads at once: one channel of a sample, or two, whose weights are the same.
ghost use Rattle.std.specs.Prelude.{◌≡◌, ◌≤◌, Bool, cond, List, Float};
ghost use Rattle.std.specs.Fn.{FnReturnsAt};
ghost use Rattle.exact.specs.Single.{◌⊕◌, ◌⊗◌, f0};
ghost use Rattle.interp.specs.Points.{frame_at};
ghost use Rattle.interp.specs.Sinc.{mean_of};
ghost use Rattle.interp.specs.Nothing.{either};

use crate::points::frame_at;
use exact::pair::Pair;

pub trait Channels: Copy {
    // A number for each channel.
    type Frame: Copy + Default;

    // The left channel's frames and number, or the right one's; one channel alone is both.
    ghost frames: { Self → Bool → List Float };

    ghost part: { Self.Frame → Bool → Float };

    // What `read` makes of each channel's frames.
    fn each<F: Fn(&[f32]) -> f32>(self, read: F) -> Self::Frame
        requires { F.IsAlwaysCallable read }
        ensures { (right : Bool) → FnReturnsAt F.Fn read (frames self right) (part result right) };

    // The frames in place n, each by the weight w, on top of a sum.
    fn more(self, sum: Self::Frame, w: f32, n: usize) -> Self::Frame
        ensures { (right : Bool) → part result right ≡ part sum right ⊕ w ⊗ frame_at (frames self right) n };

    // Each sum over the sum of the weights.
    fn mean(self, sum: Self::Frame, wsum: f32) -> Self::Frame
        ensures { (right : Bool) → part result right ≡ mean_of (record { acc = part sum right; wsum = wsum }) };

    // A sum of none.
    ghost nothing: { (x : Self.Frame) (right : Bool) → Self.Frame.is_default x → part x right ≡ f0 };
}

// The sum over the sum of the weights.
#[tactic(auto, unfolding(crate::specs::Sinc::mean_of))]
pub fn mean(acc: f32, wsum: f32) -> f32
    ensures { result ≡ mean_of (record { acc = acc; wsum = wsum }) }
{
    if wsum != 0.0 { acc / wsum } else { 0.0 }
}

impl<'a> Channels for &'a [f32] {
    type Frame = f32;

    ghost frames = { λ s right. s.now };

    ghost part = { λ x right. x };

    fn each<F: Fn(&[f32]) -> f32>(self, read: F) -> f32 {
        read(self)
    }

    fn more(self, sum: f32, w: f32, n: usize) -> f32 {
        sum + w * frame_at(self, n)
    }

    fn mean(self, sum: f32, wsum: f32) -> f32 {
        mean(sum, wsum)
    }

    ghost nothing = { λ x right e. e };
}

impl<'a> Channels for Pair<&'a [f32]> {
    type Frame = Pair<f32>;

    ghost frames = { λ s right. cond right s.r.now s.l.now };

    ghost part = { λ x right. cond right x.r x.l };

    fn each<F: Fn(&[f32]) -> f32>(self, read: F) -> Pair<f32> {
        Pair {
            l: read(self.l),
            r: read(self.r),
        }
    }

    fn more(self, sum: Pair<f32>, w: f32, n: usize) -> Pair<f32> {
        Pair {
            l: sum.l + w * frame_at(self.l, n),
            r: sum.r + w * frame_at(self.r, n),
        }
    }

    fn mean(self, sum: Pair<f32>, wsum: f32) -> Pair<f32> {
        Pair {
            l: mean(sum.l, wsum),
            r: mean(sum.r, wsum),
        }
    }

    ghost nothing = { λ x right e. either right x e };
}
