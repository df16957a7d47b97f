// What a block asks of session and voice once they are not quiet; and whether it is a block without events, in which the gate does not turn
// and no off time waits on the voice's records. Its players sound from the first frame to the last, and the session is not touched unless one
// of them ends.
ghost use Rattle.std.specs.Prelude.{not, ◌&&◌, ◌≡◌, is_some, cond, Some, None};
ghost use Rattle.std.specs.Option.{option_copied};
ghost use Rattle.block.specs.Next.{next_gate};
ghost use Rattle.block.specs.Ready.{Covers};
ghost use Rattle.causes.specs.Calm.{look_fits};
ghost use Rattle.causes.specs.Others.{off_waits};

use super::check::over_players;
use super::quiet::ground_fits;
use super::tally::{off_waits, others_fit};
use block::BlockTime;
use block::inputs::next_gate;
use events::SampleVoice;
use player_checks::check::players_look;
use session::{Session, slots_in_order};

// Where 8 and 9 pass: whether an off time waits on the voice's records.
#[tactic(auto, unfolding(crate::specs::Calm::look_fits, crate::specs::Others::list_fits))]
pub fn look(
    s: &Session,
    v: &SampleVoice,
    t: BlockTime,
    words: &[u32],
    samples: &[u32],
    frames: usize,
    table: usize,
) -> Option<bool>
    ensures { result ≡ cond (look_fits t words.now samples.now frames table s.now v.now) (Some (off_waits v.now.voice s.now)) None }
{
    if !ground_fits(s, v, t, words, samples, frames, table) {
        return None;
    }
    if over_players(&v.players) {
        return None;
    }
    let own = players_look(&v.players, v.program, samples)?;
    if !others_fit(s, Some(v.program.regions), None) {
        return None;
    }
    if !slots_in_order(s, v.voice, own) {
        return None;
    }
    Some(off_waits(s, v.voice))
}

// Whether nothing happens but sound: no off time waits, and the gate does not turn.
pub fn is_calm(waits: bool, prev: bool, gate: Option<&[f32]>, n: usize) -> bool
    requires { Covers (option_copied gate) n }
    ensures { result ≡ (not waits && not (is_some (next_gate prev (option_copied gate.entry) 0 n))) }
{
    !waits && next_gate(prev, gate, 0, n).is_none()
}
