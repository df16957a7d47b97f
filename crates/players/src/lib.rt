// A voice's players: 32 places by value, of which the first `count` are in use, in the order of their starts.
#![tactic(auto)]

pub mod gate;
pub mod mix;

ghost use Rattle.std.specs.Prelude.{◌≡◌, ◌<◌, map};
ghost use Rattle.std.specs.List.{list_any};
ghost use Rattle.player.specs.Bounds.{PlayerOk};
ghost use Rattle.players.specs.Seats.{sounding, PlayersOk, no_players, seated, slots_from, slot_numbers, slot_pushed, retuned, retuned_all, is_over, reaped};

use envelope::{EgState, Env};
use filter::FilterShape;
use gain::Matrix;
use interp::Interp;
use interp::sinc::SincSpan;
use player::pitch::set_pitch;
use player::{Cold, Hot, Player};
use program::region::{LoopMode, OffMode};
use session::{Slots, used};

// The host hands them in, and what it hands in is tested: a count above 32 and players that are out of bounds have to be values that the
// test can refuse. So the array and its count stay beside one another, and `PlayersOk` is asked for and no part of the type.
#[derive(Clone, Copy)]
pub struct Players {
    pub players: [Player; 32],
    pub count: usize,
}

// The players that go on, and the slots of those that are gone.
#[derive(Drop)]
pub struct Reaped {
    pub players: Players,
    pub gone: Slots,
}

// After a falling gate: whether a player was ended in its delay.
#[derive(Drop)]
pub struct Released {
    pub players: Players,
    pub killed: bool,
}

// What an off mark met in its slot: no player, one that was off already, or one that it turned off.
#[derive(Clone, Copy)]
pub enum OffMark {
    NoPlayer,
    Ignored,
    Turned { on_note: bool },
}

// After an off mark acted on a slot.
#[derive(Drop)]
pub struct Offed {
    pub players: Players,
    pub mark: OffMark,
}

// What fills a place before its first use: memory is fixed, so that each place holds a player.
const NO_ENV: Env = Env {
    state: EgState::Done,
    value: 0.0,
    start: 0.0,
    delay: 0,
    attack_step: 0.0,
    hold: 0,
    decay_rate: 0.0,
    sustain: 0.0,
    release_rate: 0.0,
    transition_delta: 0.0,
    free_running: false,
    sample_rate: 0.0,
};

const NO_COLD: Cold = Cold {
    step: 0.0,
    span: SincSpan { fc: 0.0, half: 0 },
    last: 0,
    interp: Interp::Linear,
    stereo: false,
    silent: true,
    lp: None,
    loop_mode: LoopMode::NoLoop,
    n_filters: 0,
    gain: 0.0,
    matrix: Matrix {
        ll: 0.0,
        rl: 0.0,
        lr: 0.0,
        rr: 0.0,
    },
    rate_ratio: 0.0,
    base_cents: 0.0,
    keytrack: 0.0,
    keycenter: 0.0,
    bend_up: 0.0,
    bend_down: 0.0,
    off_mode: OffMode::Fast,
    off_time: 0.0,
    release_time: 0.0,
};

const NO_PLAYER: Player = Player {
    hot: Hot {
        env: NO_ENV,
        pos: 0.0,
        data_delay: 0,
        data_ended: false,
        offed: false,
    },
    cold: NO_COLD,
    slots: [FilterShape::Off; 6],
    states: [0.0; 72],
    slot: 0,
    region: 0,
    sample: None,
    on_note: false,
};

#[tactic(auto, unfolding(crate::specs::Seats::no_players, crate::specs::Seats::no_player))]
pub fn no_players() -> Players
    ensures { result ≡ no_players }
{
    Players {
        players: [NO_PLAYER; 32],
        count: 0,
    }
}

impl Players {
    // The players in use, in order.
    pub fn as_slice(&self) -> &[Player]
        ensures { result.now ≡ sounding self.now }
    {
        let n = used::<32>(self.count);
        &self.players[..n]
    }

    // One more player, behind the others.
    pub fn push(&mut self, p: Player)
        requires { PlayersOk self.old × (self.old.count < 32) × PlayerOk p }
        ensures { (self.new ≡ seated p self.old) × PlayersOk self.new }
    {
        self.players[self.count] = p;
        self.count += 1;
    }
}

// ---- lists of slots

const NO_SLOTS: Slots = Slots {
    slots: [0; 32],
    count: 0,
};

// One slot more, behind the others.
fn push_slot(e: &mut Slots, slot: u32)
    requires { e.old.count < 32 }
    ensures { e.new ≡ slot_pushed slot e.old }
{
    e.slots[e.count] = slot;
    e.count += 1;
}

// The players' slots, in order.
pub fn slots_of(ps: &Players) -> Slots
    ensures { result ≡ slots_from (slot_numbers (sounding ps.now)) }
{
    let mut slots = NO_SLOTS;
    let players = ps.as_slice();
    for p in players {
        push_slot(&mut slots, p.slot);
    }
    slots
}

// ---- the pitch

// How a block tunes its players.
#[derive(Clone, Copy)]
pub struct Tune {
    pub note_f: f32,
    pub bend: f32,
}

// One whose step stays is not stored again.
fn retune_one(p: &mut Player, tune: Tune)
    ensures { p.new ≡ retuned tune.note_f tune.bend p.old }
{
    let cold = set_pitch(p.cold, tune.note_f, tune.bend);
    if cold.step != p.cold.step {
        p.cold = cold;
    }
}

// The walk stands by itself: after one over a part of `retune`'s own players the proof lacks what that part is.
fn retune_each(players: &mut [Player], tune: Tune)
    ensures { players.new ≡ map (retuned tune.note_f tune.bend) players.old }
{
    for p in players {
        retune_one(p, tune);
    }
}

// Every player at this note and bend.
pub fn retune(ps: Players, tune: Tune) -> Players
    requires { PlayersOk ps }
    ensures { (result ≡ retuned_all tune.note_f tune.bend ps) × PlayersOk result }
{
    let n = ps.count;
    let mut t = ps;
    let (players, _) = t.players.split_at_mut(n);
    retune_each(players, tune);
    t
}

// The player's envelope is done.
fn is_over(p: &Player) -> bool
    ensures { result ≡ is_over p.now }
{
    p.hot.env.done()
}

// Whether some player's envelope is done.
pub fn any_over(ps: &Players) -> bool
    ensures { result ≡ list_any is_over (sounding ps.now) }
{
    ps.as_slice().iter().any(is_over)
}

// Finished players leave; the others keep their order.
pub fn reap(ps: Players) -> Reaped
    requires { PlayersOk ps }
    ensures { (result ≡ reaped ps) × PlayersOk result.players }
{
    let mut kept = Players { count: 0, ..ps };
    let mut gone = NO_SLOTS;
    let players = ps.as_slice();
    for p in players {
        if is_over(p) {
            push_slot(&mut gone, p.slot);
        } else {
            kept.push(*p);
        }
    }
    Reaped {
        players: kept,
        gone,
    }
}
