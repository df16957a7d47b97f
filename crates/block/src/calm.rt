// A block without events. Session and voice do not go through it: the players alone are passed, by value once, and the session only
// where one of them has ended.
ghost use Rattle.std.specs.Prelude.{◌≡◌, ◌≤◌, length, take};
ghost use Rattle.std.specs.List.{list_any};
ghost use Rattle.std.specs.Option.{option_copied};
ghost use Rattle.players.specs.Seats.{sounding, is_over, PlayersOk};
ghost use Rattle.block.specs.Inputs.{Reaches, signals_of};
ghost use Rattle.block.specs.Calm.{tune_of, calm_part, settled};
ghost use Rattle.block.specs.Ready.{Covers};

use super::entries_of;
use super::frames::{amplify_both, clear_both};
use super::inputs::{Inputs, bend_of, input_at};
use super::render::end_records;
use events::{Both, SampleVoice};
use gates::off::reap;
use note::{NoteState, note_of};
use players::mix::{Sounded, Sounds, sound_all};
use players::{Players, Tune};
use session::{Session, Slots};

// The pitch of a sounding note: this block's first frequency and bend. That both inputs reach is asked here and by its callers, and is
// no ghost field of `Inputs`: whoever makes one would owe it, also for the calls that turn a short input back.
#[tactic(auto, unfolding(crate::specs::Calm::tune_of))]
pub fn tune_of(note: Option<NoteState>, inputs: Inputs<'_>) -> Option<Tune>
    requires { Reaches (signals_of inputs).freq 0 × Reaches (signals_of inputs).bend 0 }
    ensures { result ≡ tune_of note (signals_of inputs.entry) }
{
    let n = note?;
    let note_f = note_of(input_at(inputs.freq, 0, 0.0), n.note_f);
    let bend = bend_of(input_at(inputs.bend, 0, 0.0));
    Some(Tune { note_f, bend })
}

// Every player over all frames of both outputs, and the amp input last.
pub fn play_calm(
    ps: Players,
    x: Option<Tune>,
    samples: &[u32],
    pcm: &[f32],
    table: &[f32],
    amp: Option<&[f32]>,
    left: &mut [f32],
    right: &mut [f32],
) -> Sounded
    requires { PlayersOk ps × (8194 ≤ length table.now) × (length right.old ≡ length left.old) × Covers (option_copied amp) (length left.old) }
    ensures { ((record { mixed = record { players = result.players; ended = result.ended }; left = left.new; right = right.new }) ≡ calm_part (record { samples = samples.entry.now; frames = pcm.now; table = take 8194 table.now }) x (option_copied amp.entry) ps (length left.old)) × (result.over ≡ list_any is_over (sounding result.players)) × PlayersOk result.players }
{
    clear_both(left, right);
    let sounds = Sounds {
        samples,
        frames: pcm,
        table: entries_of(table),
    };
    let m = sound_all(ps, x, sounds, left, right);
    amplify_both(amp, left, right);
    m
}

// Ended data are marked, finished players leave.
pub fn settle(s: Session, v: SampleVoice, ended: Slots) -> Both
    requires { PlayersOk v.players }
    ensures { (result ≡ settled ended (record { session = s; voice = v })) × PlayersOk result.voice.players }
{
    let t = end_records(s, v.voice, ended);
    reap(Both {
        session: t,
        voice: v,
    })
}
