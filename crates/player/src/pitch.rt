// A player's step: the note, the bend and the region's pitch, in cents.
ghost use Rattle.std.specs.Prelude.{◌≡◌};
ghost use Rattle.player.specs.Pitch.{bend_cents, held_step, step_of, pitched};

use super::Cold;
use exact::format::widen;
use gain::cents_factor;
use interp::sinc::SincSpan;

// The bend in cents, by the range on its side.
fn bend_cents(cold: Cold, bend: f32) -> f32
    ensures { result ≡ bend_cents cold bend }
{
    if bend > 0.0 {
        bend * cold.bend_up
    } else {
        -bend * cold.bend_down
    }
}

// A step within 0 to 4,096. No `clamp`: one that is not a number is 0.
fn held_step(s: f64) -> f64
    ensures { result ≡ held_step s }
{
    if s >= 0.0 {
        if s > 4096.0 { 4096.0 } else { s }
    } else {
        0.0
    }
}

// The step at a note and a bend.
fn step_of(cold: Cold, note_f: f32, bend: f32) -> f64
    ensures { result ≡ step_of cold note_f bend }
{
    let cents = cold.keytrack * (note_f - cold.keycenter)
        + cold.base_cents
        + bend_cents(cold, bend);
    held_step(widen(cents_factor(cents)) * cold.rate_ratio)
}

// The player at a note and a bend. The kernel's span is made anew only where the step changes.
pub fn set_pitch(cold: Cold, note_f: f32, bend: f32) -> Cold
    ensures { result ≡ pitched cold note_f bend }
{
    let step = step_of(cold, note_f, bend);
    if step != cold.step {
        let span = SincSpan::for_step(step);
        return Cold { step, span, ..cold };
    }
    cold
}
