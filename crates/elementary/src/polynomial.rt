// Polynomials in doubles, the sums of this crate's series.
ghost use Rattle.std.specs.Prelude.{◌≡◌};
ghost use Rattle.std.specs.List.{fold};
ghost use Rattle.std.specs.Float.{binary64};
ghost use Rattle.std.specs.Float.Ieee.{add, mul};

// The coefficients from the one of the highest power down.
pub(crate) struct Polynomial<const N: usize> {
    pub(crate) highest: f64,
    pub(crate) lower: [f64; N],
}

impl<const N: usize> Polynomial<N> {
    // The value at x, by Horner's rule.
    pub(crate) fn at(&self, x: f64) -> f64
        ensures { result ≡ fold (λ s c. add binary64 c (mul binary64 x s)) self.now.highest self.now.lower }
    {
        self.lower.iter().fold(self.highest, |s, c| *c + x * s)
    }
}
