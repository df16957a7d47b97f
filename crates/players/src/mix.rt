// A segment of every player, one after the other, added to both outputs' parts.
ghost use Rattle.std.specs.Prelude.{◌≡◌, ◌<◌, ◌+◌, ◌^◌, cond, length, take, drop, option_map};
ghost use Rattle.player.specs.Bounds.{PlayerOk};
ghost use Rattle.segments.specs.Segment.{played_by};
ghost use Rattle.std.specs.List.{list_any};
ghost use Rattle.players.specs.Mix.{first_channel, second_channel, lent_to, tuned_one, tuned_all, played_all};
ghost use Rattle.players.specs.Seats.{sounding, is_over, PlayersOk};

use super::{NO_SLOTS, Players, Tune, is_over, push_slot, retune_one};
use player::Player;
use program::region::SILENCE;
use program::sample::{Sample, sample_at};
use segments::segment::play;
use segments::source::Lent;
use session::Slots;

// What players read: the samples' words, all frames, and the sinc table.
#[derive(Clone, Copy)]
pub struct Sounds<'a> {
    pub samples: &'a [u32],
    pub frames: &'a [f32],
    pub table: &'a [f32; 8194],
}

// After a segment: the slots of the players whose data ended in it, and whether some player's envelope is done.
#[derive(Drop)]
pub struct Sounded {
    pub over: bool,
    pub ended: Slots,
    // behind the small parts: what a walk hands back is then copied once
    pub players: Players,
}

// The n frames from `start` on, or those of them that are there.
fn part(frames: &[f32], start: usize, n: usize) -> &[f32]
    requires { start + n < 2 ^ 64 }
    ensures { result.now ≡ take n (drop start frames.now) }
{
    let len = frames.len();
    let first = start.min(len);
    let end = (start + n).min(len);
    &frames[first..end]
}

// The first channel's frames.
fn first_channel(frames: &[f32], s: Sample) -> &[f32]
    ensures { result.now ≡ first_channel frames.now s }
{
    part(frames, s.start as usize, s.frames as usize)
}

// The second channel's frames, for a player of two. They follow the first's; a sample of one channel has none.
fn second_channel(frames: &[f32], s: Sample, stereo: bool) -> Option<&[f32]>
    ensures { option_map (λ x. x.now) result ≡ cond stereo (Some (second_channel frames.now s)) None }
{
    if !stereo {
        return None;
    }
    let n = s.frames as usize;
    if s.channels == 2 {
        return Some(part(frames, s.start as usize + n, n));
    }
    Some(&[])
}

// Tuned as the block has it.
fn tune_one(p: &mut Player, tune: Option<Tune>)
    ensures { p.new ≡ tuned_one tune p.old }
{
    if let Some(t) = tune {
        retune_one(p, t);
    }
}

// A player is tuned, and plays its segment with its sample's frames. Whether its data ended in it.
fn sound_one(
    p: &mut Player,
    tune: Option<Tune>,
    sounds: Sounds<'_>,
    left: &mut [f32],
    right: &mut [f32],
) -> bool
    requires { PlayerOk p.old × (length right.old ≡ length left.old) }
    ensures { ((record { played = record { player = p.new; ended = result }; left = left.new; right = right.new }) ≡ played_by (lent_to (record { samples = sounds.entry.samples.now; frames = sounds.entry.frames.now; table = sounds.entry.table.now }) (tuned_one tune p.old)) (tuned_one tune p.old) left.old right.old) × PlayerOk p.new }
{
    tune_one(p, tune);
    let s = sample_at(sounds.samples, p.sample.unwrap_or(SILENCE));
    let lent = Lent {
        a: first_channel(sounds.frames, s),
        b: second_channel(sounds.frames, s, p.cold.stereo),
        table: sounds.table,
    };
    let y = play(*p, lent, left, right);
    *p = y.player;
    y.ended
}

// Every player is tuned and plays its segment, one after the other, added to both outputs' parts. One walk does both, and notes what the
// session has to hear. It goes by index: where it lends `t.players[k]`, or walks over a part of `t`, the proof lacks what `t` holds after.
// Both outputs are two parameters: of a struct that lends a part of both no proof is made.
pub fn sound_all(
    ps: Players,
    tune: Option<Tune>,
    sounds: Sounds<'_>,
    left: &mut [f32],
    right: &mut [f32],
) -> Sounded
    requires { PlayersOk ps × (length right.old ≡ length left.old) }
    ensures { ((record { mixed = record { players = result.players; ended = result.ended }; left = left.new; right = right.new }) ≡ played_all (record { samples = sounds.entry.samples.now; frames = sounds.entry.frames.now; table = sounds.entry.table.now }) (tuned_all tune ps) left.old right.old) × (result.over ≡ list_any is_over (sounding result.players)) × PlayersOk result.players }
{
    let n = ps.count;
    let mut t = ps;
    let mut ended = NO_SLOTS;
    let mut over = false;
    for k in 0..n {
        let mut p = t.players[k];
        let slot = p.slot;
        if sound_one(&mut p, tune, sounds, left, right) {
            push_slot(&mut ended, slot);
        }
        over |= is_over(&p);
        t.players[k] = p;
    }
    Sounded {
        players: t,
        ended,
        over,
    }
}
