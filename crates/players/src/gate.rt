// What a falling gate and an off mark do to the players.
ghost use Rattle.std.specs.Prelude.{position, ◌≡◌, ◌&&◌, ◌<◌};
ghost use Rattle.std.specs.List.{list_any};
ghost use Rattle.session.specs.Lists.{change_where};
ghost use Rattle.players.specs.Seats.{PlayersOk};
ghost use Rattle.players.specs.Gate.{delays, ended_env, with_envelope, plays_on, hears_gate, let_go, released_all, off_time_of, turned_off, in_slot, offed_slot};

use super::{OffMark, Offed, Players, Released};
use envelope::{EgState, Env};
use player::{Cold, Hot, Player};
use program::region::{LoopMode, OffMode};

// The player's envelope has delay left.
fn delays(p: Player) -> bool
    ensures { result ≡ delays p }
{
    p.hot.env.remaining_delay() > 0
}

// Released; in its delay, done at once.
#[tactic(auto, unfolding(crate::specs::Gate::ended_env))]
fn ended_env(e: Env) -> Env
    ensures { result ≡ ended_env e }
{
    if e.remaining_delay() > 0 {
        return Env {
            state: EgState::Done,
            ..e
        };
    }
    e.release()
}

// The player with this envelope, off or not.
fn with_envelope(p: Player, env: Env, off: bool) -> Player
    ensures { result ≡ with_envelope env off p }
{
    Player {
        hot: Hot {
            env,
            offed: off,
            ..p.hot
        },
        ..p
    }
}

// A one-shot plays to its end.
fn plays_on(mode: LoopMode) -> bool
    ensures { result ≡ plays_on mode }
{
    matches!(mode, LoopMode::OneShot)
}

// A falling gate reaches players of a note-on that do not play on.
#[tactic(auto, unfolding(crate::specs::Gate::hears_gate))]
fn hears_gate(p: Player) -> bool
    ensures { result ≡ hears_gate p }
{
    p.on_note && !plays_on(p.cold.loop_mode)
}

fn let_go(p: Player) -> Player
    ensures { result ≡ let_go p }
{
    with_envelope(p, ended_env(p.hot.env), p.hot.offed)
}

// Those that hear the gate are let go; whether one was ended in its delay. The walk stands by itself for the reason that `retune_each` does.
fn release_each(players: &mut [Player]) -> bool
    ensures { (players.new ≡ change_where hears_gate let_go players.old) × (result ≡ list_any (λ p. hears_gate p && delays p) players.old) }
{
    let mut killed = false;
    for p in players {
        if hears_gate(*p) {
            killed |= delays(*p);
            *p = let_go(*p);
        }
    }
    killed
}

// A falling gate: the players of note-ons, save one-shots, are released, or ended in their delay.
pub fn release_all(ps: Players) -> Released
    requires { PlayersOk ps }
    ensures { (result ≡ released_all ps) × PlayersOk result.players }
{
    let n = ps.count;
    let mut t = ps;
    let (players, _) = t.players.split_at_mut(n);
    let killed = release_each(players);
    Released { players: t, killed }
}

// The release time of its off mode.
fn off_time(mode: OffMode, cold: Cold) -> f32
    ensures { result ≡ off_time_of mode cold }
{
    match mode {
        OffMode::Fast => 6e-3,
        OffMode::Normal => cold.release_time,
        OffMode::Time => cold.off_time,
    }
}

// The player is off, with the release of its off mode.
#[tactic(auto, unfolding(crate::specs::Gate::turned_off))]
fn turned_off(p: Player) -> Player
    ensures { result ≡ turned_off p }
{
    let timed = p
        .hot
        .env
        .set_release_time(off_time(p.cold.off_mode, p.cold));
    with_envelope(p, ended_env(timed), true)
}

// Where the first player in the slot stands.
fn place_of(players: &[Player], slot: u32) -> Option<usize>
    ensures { result ≡ position (in_slot slot) players.now }
{
    players.iter().position(|p| p.slot == slot)
}

// The off mark of a slot acts.
pub fn off_slot(ps: Players, slot: u32) -> Offed
    requires { PlayersOk ps }
    ensures { (result ≡ offed_slot slot ps) × PlayersOk result.players }
{
    let Some(i) = place_of(ps.as_slice(), slot) else {
        return Offed {
            players: ps,
            mark: OffMark::NoPlayer,
        };
    };
    let p = ps.players[i];
    if p.hot.offed {
        return Offed {
            players: ps,
            mark: OffMark::Ignored,
        };
    }
    let mut t = ps;
    t.players[i] = turned_off(p);
    let mark = OffMark::Turned { on_note: p.on_note };
    Offed { players: t, mark }
}
