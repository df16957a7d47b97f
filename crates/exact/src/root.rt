// The square root.
ghost use Rattle.std.specs.Prelude.{◌≡◌};
ghost use Rattle.std.specs.Float.{binary32};
ghost use Rattle.exact.specs.Root.{square_root};

// Rust's `x.sqrt()`, which is the machine's instruction.
#[tactic(auto, using(crate::proofs::SquareRoot::root_same))]
pub fn sqrt_f32(x: f32) -> f32
    ensures { result ≡ square_root binary32 x }
{
    x.sqrt()
}
