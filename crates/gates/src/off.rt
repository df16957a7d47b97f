// Players that end leave the voice and the session's list; off marks that act: the Rust's `reap` and `apply_off`, and the off times
// that a note-on leaves on its own voice's records.
ghost use Rattle.std.specs.Prelude.{◌≡◌, IfSome};
ghost use Rattle.players.specs.Gate.{ignored, fires};
ghost use Rattle.players.specs.Seats.{PlayersOk};
ghost use Rattle.events.specs.Voice.{with_players, with_note};
ghost use Rattle.gates.specs.Off.{reaped_both, unfired, fired_note, may_fire, choke_fires, applied_off, turned_own, own_offs};

use events::start::dispatch_release;
use events::{Both, Kit, SampleVoice};
use note::NoteState;
use players::gate::off_slot;
use players::{OffMark, Players, any_over};
use session::{remove_slots, take_first_off};

// The voice with other players.
pub fn with_players(v: SampleVoice, ps: Players) -> SampleVoice
    ensures { result ≡ with_players ps v }
{
    SampleVoice { players: ps, ..v }
}

// Players whose envelope is done leave the voice, and their records the list.
#[tactic(auto, unfolding(crate::specs::Off::reaped_both))]
pub fn reap(b: Both) -> Both
    requires { PlayersOk b.voice.players }
    ensures { (result ≡ reaped_both b) × PlayersOk result.voice.players }
{
    if !any_over(&b.voice.players) {
        return b;
    }
    let r = players::reap(b.voice.players);
    Both {
        session: remove_slots(b.session, b.voice.voice, r.gone),
        voice: with_players(b.voice, r.players),
    }
}

// ---- the choke of a note-on's player under a held gate

// Whether the note's release regions have not been fired by a choke.
fn is_unfired(m: Option<NoteState>) -> bool
    ensures { result ≡ unfired m }
{
    m.is_some_and(|n| !n.choke_released)
}

fn fired_note(m: Option<NoteState>) -> Option<NoteState>
    ensures { result ≡ fired_note m }
{
    m.map(|n| NoteState {
        choke_released: true,
        ..n
    })
}

// The voice with another note.
fn with_note(v: SampleVoice, m: Option<NoteState>) -> SampleVoice
    ensures { result ≡ with_note m v }
{
    SampleVoice { note: m, ..v }
}

fn may_fire(v: SampleVoice, due: bool) -> bool
    ensures { result ≡ may_fire due v }
{
    due && v.gate_held && is_unfired(v.note)
}

// Fires the note's release regions, once for each note. `due` is one of the three conditions that `may_fire` tests, so that it stays a
// parameter: in the caller's `if` it would be parted from the other two.
#[tactic(auto, unfolding(crate::specs::Off::choke_fires))]
fn choke_fires(b: Both, k: Kit<'_>, at: u64, due: bool) -> Both
    requires { PlayersOk b.voice.players }
    ensures { (result ≡ choke_fires (record { words = k.entry.words.now; samples = k.entry.samples.now }) k.entry.regions at due b) × PlayersOk result.voice.players }
{
    if !may_fire(b.voice, due) {
        return b;
    }
    let voice = with_note(b.voice, fired_note(b.voice.note));
    dispatch_release(Both { voice, ..b }, k, at)
}

// ---- off marks

fn is_ignored(mark: OffMark) -> bool
    ensures { result ≡ ignored mark }
{
    matches!(mark, OffMark::Ignored)
}

// Whether it turned off the player of a note-on.
fn fires(mark: OffMark) -> bool
    ensures { result ≡ fires mark }
{
    match mark {
        OffMark::NoPlayer | OffMark::Ignored => false,
        OffMark::Turned { on_note } => on_note,
    }
}

// The off mark of a slot acts at the time `at`.
#[tactic(auto, unfolding(crate::specs::Off::applied_off))]
pub fn apply_off(b: Both, k: Kit<'_>, slot: u32, at: u64) -> Both
    requires { PlayersOk b.voice.players }
    ensures { (result ≡ applied_off (record { words = k.entry.words.now; samples = k.entry.samples.now }) k.entry.regions slot at b) × PlayersOk result.voice.players }
{
    let o = off_slot(b.voice.players, slot);
    if is_ignored(o.mark) {
        return b;
    }
    let voice = with_players(b.voice, o.players);
    choke_fires(reap(Both { voice, ..b }), k, at, fires(o.mark))
}

// The voice's first waiting off time, where there is one, is taken and acts. Block's `off_turn` takes its own from the block's list.
#[tactic(auto, unfolding(crate::specs::Off::turned_own, crate::specs::Off::took_own))]
fn took_own(b: Both, k: Kit<'_>) -> Option<Both>
    requires { PlayersOk b.voice.players }
    ensures { (result ≡ turned_own (record { words = k.entry.words.now; samples = k.entry.samples.now }) k.entry.regions b) × IfSome result (λ x. PlayersOk x.voice.players) }
{
    let t = take_first_off(b.session, b.voice.voice);
    let o = t.first?;
    let taken = Both {
        session: t.session,
        ..b
    };
    Some(apply_off(taken, k, o.slot, o.at))
}

// Every off time then on the voice's own records acts, until none is left. No list's length bounds the turns: the release that one of them
// fires adds records.
pub fn own_offs(mut b: Both, k: Kit<'_>) -> Both
    requires { PlayersOk b.voice.players }
    ensures { (result ≡ own_offs (record { words = k.entry.words.now; samples = k.entry.samples.now }) k.entry.regions 128 b) × PlayersOk result.voice.players }
{
    for _ in 0..128u32 {
        let Some(next) = took_own(b, k) else {
            return b;
        };
        b = next;
    }
    b
}
