// A block in which nothing happens. A voice without players whose gate does not turn leaves itself and the session as they were; it is
// told apart before anything is copied.
ghost use Rattle.std.specs.Prelude.{◌≡◌, length, replicate};
ghost use Rattle.std.specs.Option.{option_copied};
ghost use Rattle.exact.specs.Single.{f0};
ghost use Rattle.program.specs.Valid.{every};
ghost use Rattle.block.specs.Block.{amplified};
ghost use Rattle.block.specs.Ready.{Covers};
ghost use Rattle.causes.specs.Quiet.{rest_tests, ground_tests, is_quiet};

use super::check::{in_time, live_fits, rate_fits};
use super::tally::others_fit;
use block::BlockTime;
use block::frames::{amplify_both, clear_both};
use block::inputs::next_gate;
use events::SampleVoice;
use program::bind::program_ok;
use session::{Session, over_held};

// 8, what neither the list nor a player shows.
fn rest_fits(s: &Session, v: &SampleVoice) -> bool
    ensures { result ≡ every (rest_tests s.now v.now) }
{
    live_fits(s, v.voice) && rate_fits(v.sample_rate) && !over_held(s)
}

// 8 and 9, what neither the list nor a player shows, of the program too.
pub(super) fn ground_fits(
    s: &Session,
    v: &SampleVoice,
    t: BlockTime,
    words: &[u32],
    samples: &[u32],
    frames: usize,
    table: usize,
) -> bool
    ensures { result ≡ every (ground_tests t words.now samples.now frames table s.now v.now) }
{
    rest_fits(s, v)
        && program_ok(v.program, words, samples, frames, table)
        && in_time(t.offset, s.event_serial)
}

// Whether 8 and 9 pass, the voice has no player and its gate does not turn in the block.
#[tactic(auto, unfolding(crate::specs::Quiet::is_quiet))]
pub fn is_quiet(
    s: &Session,
    v: &SampleVoice,
    t: BlockTime,
    gate: Option<&[f32]>,
    words: &[u32],
    samples: &[u32],
    frames: usize,
    table: usize,
) -> bool
    requires { Covers (option_copied gate) t.frames }
    ensures { result ≡ is_quiet t (option_copied gate.entry) words.now samples.now frames table s.now v.now }
{
    v.players.count == 0
        && ground_fits(s, v, t, words, samples, frames, table)
        && others_fit(s, Some(v.program.regions), Some(v.voice))
        && next_gate(v.gate_prev, gate, 0, t.frames).is_none()
}

// Silence in both outputs, under the amp input.
pub fn quiet_outputs(amp: Option<&[f32]>, left: &mut [f32], right: &mut [f32])
    requires { Covers (option_copied amp) (length left.old) × Covers (option_copied amp) (length right.old) }
    ensures { (left.new ≡ amplified (option_copied amp.entry) (replicate (length left.old) f0)) × (right.new ≡ amplified (option_copied amp.entry) (replicate (length right.old) f0)) }
{
    clear_both(left, right);
    amplify_both(amp, left, right);
}
