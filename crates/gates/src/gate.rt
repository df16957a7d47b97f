// A rising gate and a falling one: the Rust's `note_on` and `note_off`.
ghost use Rattle.std.specs.Prelude.{◌≡◌};
ghost use Rattle.players.specs.Seats.{PlayersOk};
ghost use Rattle.session.specs.State.{with_seq};
ghost use Rattle.note.specs.Choice.{chosen_on};
ghost use Rattle.events.specs.Voice.{struck, ungated};
ghost use Rattle.gates.specs.Gate.{risen, attack_cause, hit_at, note_started, noted_on, let_go_both, noted_off};

use super::off::{own_offs, reap, with_players};
use events::start::{dispatch_release, start_all};
use events::{Both, Cause, Kit, SampleVoice, Stroke};
use exact::random::rand01;
use note::choice::{ChosenOn, Query};
use note::{NoteState, Strike, note_state};
use players::gate::release_all;
use session::{Sequences, Session, lower_held, next_serial, raise_held};

// ---- a rising gate

// One event and one held gate more.
fn rise(s: Session) -> Session
    ensures { result ≡ risen s }
{
    raise_held(next_serial(s))
}

// The session with other sequences.
fn with_seq(s: Session, q: Sequences) -> Session
    ensures { result ≡ with_seq q s }
{
    Session { seq: q, ..s }
}

// The voice with a new note, under a held gate.
fn strike(v: SampleVoice, ns: NoteState) -> SampleVoice
    ensures { result ≡ struck ns v }
{
    SampleVoice {
        gate_held: true,
        note: Some(ns),
        started: true,
        ..v
    }
}

// The regions that the note starts.
fn choose(s: Session, k: Kit<'_>, ns: NoteState) -> ChosenOn
    ensures { result ≡ chosen_on (hit_at k.entry.words.now ns s) k.entry.regions ns.note s.seq }
{
    let query = Query {
        words: k.words,
        regions: k.regions,
        key: ns.note,
        vel: ns.vel,
        draw: rand01(ns.seed, s.event_serial, 0),
    };
    query.choose_on(s.seq, s.held)
}

fn attack_cause(s: Session, at: u64) -> Cause
    ensures { result ≡ attack_cause at s }
{
    Cause {
        serial: s.event_serial,
        at,
        kind: player::start::Cause::NoteOn,
        held_secs: 0.0,
    }
}

// The note's regions are chosen, and then start in turn.
fn start_note(b: Both, k: Kit<'_>, ns: NoteState, at: u64) -> Both
    requires { PlayersOk b.voice.players }
    ensures { (result ≡ note_started (record { words = k.entry.words.now; samples = k.entry.samples.now }) k.entry.regions ns at b) × PlayersOk result.voice.players }
{
    let h = rise(b.session);
    let c = choose(h, k, ns);
    let struck = Both {
        session: with_seq(h, c.seq),
        voice: strike(b.voice, ns),
    };
    let cause = attack_cause(h, at);
    start_all(struck, k, c.chosen, Stroke { note: ns, cause })
}

// The note of a rising gate, and then every off time on the voice's own records.
#[tactic(auto, unfolding(crate::specs::Gate::noted_on))]
pub fn note_on(b: Both, k: Kit<'_>, x: Strike) -> Both
    requires { PlayersOk b.voice.players }
    ensures { (result ≡ noted_on (record { words = k.entry.words.now; samples = k.entry.samples.now }) k.entry.regions x b) × PlayersOk result.voice.players }
{
    own_offs(start_note(b, k, note_state(x), x.at), k)
}

// ---- a falling gate

fn ungate(v: SampleVoice) -> SampleVoice
    ensures { result ≡ ungated v }
{
    SampleVoice {
        gate_held: false,
        ..v
    }
}

// The players are let go; those ended in their delay leave at once.
#[tactic(auto, unfolding(crate::specs::Gate::let_go_both))]
fn let_go(b: Both) -> Both
    requires { PlayersOk b.voice.players }
    ensures { (result ≡ let_go_both b) × PlayersOk result.voice.players }
{
    let r = release_all(b.voice.players);
    let released = Both {
        voice: with_players(b.voice, r.players),
        ..b
    };
    if r.killed {
        return reap(released);
    }
    released
}

// A falling gate, where it was held.
#[tactic(auto, unfolding(crate::specs::Gate::noted_off, crate::specs::Gate::let_go_note))]
pub fn note_off(b: Both, k: Kit<'_>, at: u64) -> Both
    requires { PlayersOk b.voice.players }
    ensures { (result ≡ noted_off (record { words = k.entry.words.now; samples = k.entry.samples.now }) k.entry.regions at b) × PlayersOk result.voice.players }
{
    if !b.voice.gate_held {
        return b;
    }
    let lowered = Both {
        session: lower_held(b.session),
        voice: ungate(b.voice),
    };
    dispatch_release(let_go(lowered), k, at)
}
