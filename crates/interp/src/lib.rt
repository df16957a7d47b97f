// Reading a sample at a fractional frame position: two points, four points, or a windowed sinc. The frames are lent as they
// are; a kernel that draws on one before the first or behind the last multiplies 0.0.
#![tactic(auto)]

pub mod channels;
pub mod points;
pub mod position;
pub mod sinc;
pub mod tap;

ghost use Rattle.std.specs.Prelude.{◌≡◌, ◌≤◌, Bool, option_map};
ghost use Rattle.interp.specs.Position.{Position};
ghost use Rattle.interp.specs.Read.{by_quality, read_at, pair_at};

use crate::channels::Channels;
use crate::points::{hermite, linear};
use crate::position::Place;
use crate::sinc::SincSpan;
use exact::pair::Pair;

// Which kernel a voice reads its samples with.
#[derive(Clone, Copy, PartialEq, Eq, Debug)]
pub enum Interp {
    Linear,
    Hermite,
    Sinc,
}

impl Interp {
    // The kernel that a quality selects; any other value, a NaN too, gives `default`.
    #[tactic(auto, unfolding(crate::specs::Read::by_quality))]
    pub fn from_quality(q: f32, default: Interp) -> Interp
        ensures { result ≡ by_quality q default }
    {
        match q {
            0.0 => Interp::Linear,
            1.0 => Interp::Hermite,
            2.0 => Interp::Sinc,
            _ => default,
        }
    }
}

// How a voice reads its samples: its kernel, and what the windowed sinc needs.
#[derive(Clone, Copy)]
pub struct Kernel<'a> {
    pub kind: Interp,
    pub table: &'a [f32; 8194],
    pub span: SincSpan,
    pub ghost reach: { span.half ≤ 40 },
}

impl<'a> Kernel<'a> {
    // One channel at the position p.
    pub fn read(self, frames: &[f32], p: f64) -> f32
        requires { Position p }
        ensures { result ≡ read_at self.entry.kind frames.now p self.entry.table.now self.entry.span }
    {
        self.each(frames, p)
    }

    // Both channels at the position p; the right one of a mono sample is 0.0. It is compiled into the loop over frames and `sinc`,
    // which is long, is not: called from the loop, a linear frame took 1.01 of the Rust's time in place of 0.83.
    #[inline(always)]
    pub fn read_pair(self, a: &[f32], b: Option<&[f32]>, p: f64) -> Pair<f32>
        requires { Position p }
        ensures { result ≡ pair_at self.entry.kind a.now (option_map (λ s. s.now) b.entry) p self.entry.table.now self.entry.span }
    {
        match b {
            Some(b) => self.each(Pair { l: a, r: b }, p),
            None => Pair {
                l: self.each(a, p),
                r: 0.0,
            },
        }
    }

    // Each channel at the position p.
    #[inline(always)]
    fn each<C: Channels>(self, channels: C, p: f64) -> C::Frame
        requires { Position p }
        ensures { (right : Bool) → C.part result right ≡ read_at self.entry.kind (C.frames channels right) p self.entry.table.now self.entry.span }
    {
        let at = Place::of(p);
        match self.kind {
            Interp::Linear => channels.each(|x| linear(x, at.n, at.f)),
            Interp::Hermite => channels.each(|x| hermite(x, at)),
            Interp::Sinc => sinc::sinc(self, channels, at),
        }
    }
}
