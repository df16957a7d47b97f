// Regions start: the Rust's `start_region`, for all those chosen, and its `dispatch_release`.
ghost use Rattle.std.specs.Prelude.{◌≡◌, ℕ, List};
ghost use Rattle.program.specs.Region.{region_at};
ghost use Rattle.session.specs.State.{start_list};
ghost use Rattle.player.specs.Bounds.{PlayerOk};
ghost use Rattle.players.specs.Seats.{PlayersOk};
ghost use Rattle.session.specs.declared.Session.{Session};
ghost use Rattle.note.specs.Choice.{chosen_list};
ghost use Rattle.events.specs.Start.{start_at, starts_of, curve_for, player_from, one_more_dropped, started_all, held_for, releases_fired, dispatched_release};

use super::{Both, Cause, Kit, SampleVoice, Stroke};
use exact::cast::u64_to_f32;
use exact::random::rand01;
use note::choice::Query;
use note::{Chosen, NoteState};
use player::Player;
use player::start::{Cause as Kind, Event, Note, start};
use program::curve::velcurve;
use program::region::{Region, SILENCE, region_at};
use program::sample::sample_at;
use session::{Session, Start, Starts, next_serial, no_start, start_many};

// ---- what a start reads of its region

// The start of a region as the session sees it. `Start` stands below the program and the note, so that it has no parts of theirs.
#[tactic(auto, unfolding(crate::specs::Start::start_of))]
fn start_of(k: Kit<'_>, ri: u32, voice: u64, x: Stroke) -> Start
    ensures { result ≡ start_at k.entry.words.now voice x.note x.cause ri }
{
    let choke = region_at(k.words, ri).choke;
    Start {
        voice,
        region: ri,
        group: choke.group,
        off_by: choke.off_by,
        note: x.note.note,
        vel: x.note.vel,
        on_note: matches!(x.cause.kind, Kind::NoteOn),
        serial: x.cause.serial,
        at: x.cause.at,
        note_polyphony: choke.note_polyphony,
        polyphony: choke.polyphony,
    }
}

// What the region's velocity curve gives at the note's velocity.
#[tactic(auto, unfolding(crate::specs::Start::curve_for))]
fn curve_for(words: &[u32], region: Region, ri: u32, vel: u8) -> Option<f32>
    ensures { result ≡ curve_for words.now region ri vel }
{
    (region.level.velcurve_count != 0).then(|| velcurve(words, ri, vel))
}

// The player of a region in this slot.
fn player_of(k: Kit<'_>, ri: u32, x: Stroke, slot: u32, sr: f32) -> Player
    ensures { (result ≡ player_from (record { words = k.entry.words.now; samples = k.entry.samples.now }) (region_at k.entry.words.now ri) ri x.note x.cause slot sr) × PlayerOk result }
{
    let region = region_at(k.words, ri);
    let sample = sample_at(k.samples, region.sample.unwrap_or(SILENCE));
    let curve = curve_for(k.words, region, ri, x.note.vel);
    let note = Note {
        note: x.note.note,
        vel: x.note.vel,
        note_f: x.note.note_f,
        seed: x.note.seed,
        interp: x.note.interp,
    };
    let event = Event {
        slot,
        region: ri,
        serial: x.cause.serial,
        cause: x.cause.kind,
        held_secs: x.cause.held_secs,
    };
    start(region, sample, curve, note, event, sr)
}

// ---- the regions chosen

// One dropped start more.
fn drop_one(n: u32) -> u32
    ensures { result ≡ one_more_dropped n }
{
    n.saturating_add(1)
}

// The starts of the chosen regions, as the session sees them: an array and its count, as memory is fixed.
fn starts_of(k: Kit<'_>, chosen: Chosen, id: u64, x: Stroke) -> Starts
    ensures { start_list result ≡ starts_of k.entry.words.now id x.note x.cause (chosen_list chosen) }
{
    let regions = chosen.as_slice();
    let mut starts = [no_start(); 256];
    for (i, ri) in regions.iter().enumerate() {
        starts[i] = start_of(k, *ri, id, x);
    }
    Starts {
        starts,
        count: regions.len(),
    }
}

// The session's part of the starts: chokes and polyphony limits first, then the record, where the voice has room. Of the voice it needs
// no more than its id, its next slot and how many players it has. One call for all starts: each call would copy the session.
fn start_sessions(b: Both, k: Kit<'_>, chosen: Chosen, x: Stroke) -> Session
    ensures { (samples : List ℕ) → result ≡ (started_all (record { words = k.entry.words.now; samples = samples }) x.note x.cause (chosen_list chosen) b).session }
{
    let v = b.voice;
    let starts = starts_of(k, chosen, v.voice, x);
    start_many(b.session, starts, v.players.count, v.next_slot)
}

// The voice's part: each player takes the next place and the next slot; a voice that holds 32 drops the start. The players are stored
// in place: a call over them would copy them at each start.
fn start_players(v: SampleVoice, k: Kit<'_>, chosen: Chosen, x: Stroke) -> SampleVoice
    requires { PlayersOk v.players }
    ensures { ((s : Session) → result ≡ (started_all (record { words = k.entry.words.now; samples = k.entry.samples.now }) x.note x.cause (chosen_list chosen) (record { session = s; voice = v })).voice) × PlayersOk result.players }
{
    let regions = chosen.as_slice();
    let mut ps = v.players;
    let mut next = v.next_slot;
    let mut dropped = v.dropped;
    for ri in regions {
        if ps.count < 32 {
            ps.push(player_of(k, *ri, x, next, v.sample_rate));
            next = std::num::wrapping_add_u32(next, 1);
        } else {
            dropped = drop_one(dropped);
        }
    }
    SampleVoice {
        players: ps,
        next_slot: next,
        dropped,
        ..v
    }
}

// The regions start in turn: in the session, and then in the voice, since neither part looks at what the other has changed.
pub fn start_all(b: Both, k: Kit<'_>, chosen: Chosen, x: Stroke) -> Both
    requires { PlayersOk b.voice.players }
    ensures { (result ≡ started_all (record { words = k.entry.words.now; samples = k.entry.samples.now }) x.note x.cause (chosen_list chosen) b) × PlayersOk result.voice.players }
{
    let session = start_sessions(b, k, chosen, x);
    let voice = start_players(b.voice, k, chosen, x);
    Both { session, voice }
}

// ---- a note's release regions

// For how long the note was held, in seconds.
#[tactic(auto, unfolding(crate::specs::Start::held_for))]
fn held_for(at: u64, on_time: u64, rate: f32) -> f32
    ensures { result ≡ held_for at on_time rate }
{
    u64_to_f32(at.saturating_sub(on_time)) / rate
}

// The regions start that the release of the note `ns` chooses. The event takes a serial, whether a region starts or not. Where none is
// chosen the call is left out: it would copy the session and the voice.
fn fire_releases(b: Both, k: Kit<'_>, ns: NoteState, at: u64) -> Both
    requires { PlayersOk b.voice.players }
    ensures { (result ≡ releases_fired (record { words = k.entry.words.now; samples = k.entry.samples.now }) k.entry.regions ns at b) × PlayersOk result.voice.players }
{
    let t = next_serial(b.session);
    let serial = t.event_serial;
    let query = Query {
        words: k.words,
        regions: k.regions,
        key: ns.note,
        vel: ns.vel,
        draw: rand01(ns.seed, serial, 0),
    };
    let chosen = query.choose_off(t);
    let fired = Both { session: t, ..b };
    if chosen.count == 0 {
        return fired;
    }
    let held_secs = held_for(at, ns.on_time, b.voice.sample_rate);
    let cause = Cause {
        serial,
        at,
        kind: Kind::Release,
        held_secs,
    };
    start_all(fired, k, chosen, Stroke { note: ns, cause })
}

// Fires the note's release regions; without a note nothing happens.
#[tactic(auto, unfolding(crate::specs::Start::dispatched_release))]
pub fn dispatch_release(b: Both, k: Kit<'_>, at: u64) -> Both
    requires { PlayersOk b.voice.players }
    ensures { (result ≡ dispatched_release (record { words = k.entry.words.now; samples = k.entry.samples.now }) k.entry.regions at b) × PlayersOk result.voice.players }
{
    let Some(ns) = b.voice.note else {
        return b;
    };
    fire_releases(b, k, ns, at)
}
