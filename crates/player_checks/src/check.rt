// What 01's test 8 refuses in a player, each cause by itself.
ghost use Rattle.std.specs.List.{list_all};
ghost use Rattle.std.specs.Prelude.{◌≡◌, ◌&&◌, ◌≤◌, cond};
ghost use Rattle.filter.specs.Filter.{stage_count};
ghost use Rattle.players.specs.Seats.{sounding, slots_from, slot_numbers};
ghost use Rattle.player_checks.specs.Sound.{sample_out, span_over, filters_over, slot_fits, stages_over, is_double, loop_wrong, outside, frame_count, loop_past, last_past, player_fits, sample_fits, players_fit, samples_fit};

use filter::FilterShape;
use player::{LoopRt, Player};
use players::{Players, slots_of};
use program::bind::BoundProgram;
use program::sample::sample_at;
use session::Slots;

fn sample_out(p: &Player, b: BoundProgram) -> bool
    ensures { result ≡ sample_out b p.now }
{
    p.sample.is_some_and(|i| b.samples <= i)
}

fn span_over(p: &Player) -> bool
    ensures { result ≡ span_over p.now }
{
    40 < p.cold.span.half
}

// The host hands in a count beside its six slots, so that it can be above them.
fn filters_over(p: &Player) -> bool
    ensures { result ≡ filters_over p.now }
{
    6 < p.cold.n_filters
}

fn stage_count(shape: FilterShape) -> u8
    ensures { result ≡ stage_count shape }
{
    if let FilterShape::Biquad { stages, .. } = shape {
        stages
    } else {
        0
    }
}

fn slot_fits(s: FilterShape) -> bool
    ensures { result ≡ slot_fits s }
{
    stage_count(s) <= 3
}

// The chains over many stand by themselves, over what is lent: beside a whole player by value their proof is not found.
fn slots_fit(slots: &[FilterShape]) -> bool
    ensures { result ≡ list_all slot_fits slots.now }
{
    slots.iter().all(|s| slot_fits(*s))
}

#[tactic(auto, using(crate::proofs::Looking::stages_are))]
fn stages_over(p: &Player) -> bool
    ensures { result ≡ stages_over p.now }
{
    !slots_fit(&p.slots)
}

fn is_double(n: u64, x: f64) -> bool
    requires { n ≤ 4294967296 }
    ensures { result ≡ is_double n x }
{
    x == (n as f64)
}

#[tactic(auto, unfolding(crate::specs::Sound::loop_wrong))]
fn loop_wrong(lp: Option<LoopRt>) -> bool
    ensures { result ≡ loop_wrong lp }
{
    lp.is_some_and(|l| l.end < l.start
        || !is_double((l.end as u64) + 1 - (l.start as u64), l.size)
        || l.fade.is_some_and(|f| l.start < f.frames))
}

// A NaN is outside too.
fn outside(x: f64, most: f64) -> bool
    ensures { result ≡ outside most x }
{
    !(0.0 <= x && x <= most)
}

// What a player shows by itself, and beside the program's numbers.
#[tactic(auto, unfolding(crate::specs::Sound::player_fits, crate::specs::Sound::position_out, crate::specs::Sound::step_out))]
pub fn player_fits(p: &Player, b: BoundProgram) -> bool
    ensures { result ≡ player_fits b p.now }
{
    p.region < b.regions
        && !sample_out(p, b)
        && !span_over(p)
        && !filters_over(p)
        && !stages_over(p)
        && !loop_wrong(p.cold.lp)
        && !outside(p.hot.pos, 8589934592.0)
        && !outside(p.cold.step, 4096.0)
}

// The frames of the player's sample. A number for silence too, no `None`: the test as it is written counts 4,294,967,295 frames there,
// and refuses a loop that ends on the frame of that number.
#[tactic(auto, unfolding(crate::specs::Sound::frame_count))]
fn frame_count(p: &Player, samples: &[u32]) -> u32
    ensures { result ≡ frame_count samples.now p.now }
{
    p.sample
        .map_or(0xffff_ffff, |i| sample_at(samples, i).frames)
}

fn loop_past(n: u32, lp: Option<LoopRt>) -> bool
    ensures { result ≡ loop_past n lp }
{
    lp.is_some_and(|l| n <= l.end)
}

fn last_past(n: u32, p: &Player) -> bool
    ensures { result ≡ last_past n p.now }
{
    n <= p.cold.last
}

// What it shows beside its sample.
#[tactic(auto, unfolding(crate::specs::Sound::sample_fits))]
pub fn sample_fits(p: &Player, samples: &[u32]) -> bool
    ensures { result ≡ sample_fits samples.now p.now }
{
    let n = frame_count(p, samples);
    !loop_past(n, p.cold.lp) && !last_past(n, p)
}

// Each chain stands by itself, over what is lent: beside `Players` its proof is not found.
fn all_fit(players: &[Player], b: BoundProgram) -> bool
    ensures { result ≡ list_all (player_fits b) players.now }
{
    players.iter().all(|p| player_fits(p, b))
}

#[tactic(auto, using(crate::proofs::Looking::players_are))]
pub fn players_fit(ps: &Players, b: BoundProgram) -> bool
    ensures { result ≡ players_fit b ps.now }
{
    all_fit(ps.as_slice(), b)
}

fn all_samples_fit(players: &[Player], samples: &[u32]) -> bool
    ensures { result ≡ list_all (sample_fits samples.now) players.now }
{
    players.iter().all(|p| sample_fits(p, samples))
}

#[tactic(auto, using(crate::proofs::Looking::samples_are))]
pub fn samples_fit(ps: &Players, samples: &[u32]) -> bool
    ensures { result ≡ samples_fit samples.now ps.now }
{
    all_samples_fit(ps.as_slice(), samples)
}

fn all_pass(players: &[Player], b: BoundProgram, samples: &[u32]) -> bool
    ensures { result ≡ list_all (λ p. player_fits b p && sample_fits samples.now p) players.now }
{
    players
        .iter()
        .all(|p| player_fits(p, b) && sample_fits(p, samples))
}

// All that a call asks of the players: `players_fit` and `samples_fit`, in one walk, and where each player passes the slots in order.
pub fn players_look(ps: &Players, b: BoundProgram, samples: &[u32]) -> Option<Slots>
    ensures { result ≡ cond (players_fit b ps.now && samples_fit samples.now ps.now) (Some (slots_from (slot_numbers (sounding ps.now)))) None }
{
    if all_pass(ps.as_slice(), b, samples) {
        return Some(slots_of(ps));
    }
    None
}
