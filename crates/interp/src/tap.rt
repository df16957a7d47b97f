// Where a tap of the windowed sinc falls in the table of its window.
ghost use Rattle.std.specs.Prelude.{◌≡◌, ◌≤◌, T, if◌then◌else◌};
ghost use Rattle.std.specs.Float.Ieee.{le, lt, to_unsigned};
ghost use Rattle.exact.specs.Value.{plus};
ghost use Rattle.exact.specs.Single.{single, f0, f1, f8193};
ghost use Rattle.interp.specs.Places.{weight_at};

// The entry at or before the tap, and the part of the way to the next one.
#[derive(Clone, Copy)]
pub struct TapPlace {
    pub entry: u32,
    pub part: f32,
}

impl TapPlace {
    // The weight by the table between the entry and the next one.
    #[tactic(auto, unfolding(crate::specs::Places::weight_at))]
    pub fn weight(self, table: &[f32; 8194]) -> f32
        requires { self.entry ≤ 8192 }
        ensures { result ≡ weight_at table.now self.entry self.part }
    {
        let i = self.entry as usize;
        let a = table[i];
        let b = table[i + 1];
        a + self.part * (b - a)
    }
}

// This and `whole` are those of `position` in single precision. One form of both would need a trait with each format's 2^52 or 2^23,
// 0.0 and 1.0, longer than the two lines that it saves.
// What the whole number r next to x is too many.
fn excess(r: f32, x: f32) -> f32
    ensures { result ≡ (if lt x r then f1 else f0) }
{
    if r > x { 1.0 } else { 0.0 }
}

// x without its fraction. From 2^23 on singles are whole numbers, so that x + 2^23 is rounded to one; it may be one too many.
pub fn whole(x: f32) -> f32
    requires { T (plus x) × T (le x f8193) }
    ensures { result ≡ single (to_unsigned 64 x) }
{
    let r = x + 8388608.0 - 8388608.0;
    r - excess(r, x)
}
