// The events of a block, with the frames between them; and the block's outputs.
ghost use Rattle.std.specs.Prelude.{◌≡◌, false, not, ◌||◌, ◌≤◌, eqb, length, replicate};
ghost use Rattle.std.specs.Option.{option_copied};
ghost use Rattle.exact.specs.Single.{f0};
ghost use Rattle.players.specs.Seats.{PlayersOk};
ghost use Rattle.block.specs.Inputs.{signals_of};
ghost use Rattle.block.specs.Block.{sounded_from, times_each, amplified};
ghost use Rattle.block.specs.Ready.{PlayingOk, CuesOk, Covers};

use super::calm::settle;
use super::inputs::{Inputs, first_off, gate_at, gate_turns, next_event, strike_at};
use super::turns::{edge, off_turns};
use super::{BlockTime, Playing};
use players::mix::{Sounds, sound_all};

// Every frame 0.
pub fn clear(xs: &mut [f32])
    ensures { xs.new ≡ replicate (length xs.old) f0 }
{
    xs.fill(0.0);
}

// Each frame by the amp input's.
pub fn amplify(xs: &mut [f32], amp: &[f32])
    requires { length xs.old ≤ length amp.now }
    ensures { xs.new ≡ times_each xs.old amp.now }
{
    for (i, x) in xs.iter_mut().enumerate() {
        *x *= amp[i];
    }
}

// The same where the amp input is connected.
pub fn amplify_if(amp: Option<&[f32]>, xs: &mut [f32])
    requires { Covers (option_copied amp) (length xs.old) }
    ensures { xs.new ≡ amplified (option_copied amp.entry) xs.old }
{
    if let Some(amp) = amp {
        amplify(xs, amp);
    }
}

// Both outputs of a block.
pub fn clear_both(left: &mut [f32], right: &mut [f32])
    ensures { (left.new ≡ replicate (length left.old) f0) × (right.new ≡ replicate (length right.old) f0) }
{
    clear(left);
    clear(right);
}

pub fn amplify_both(amp: Option<&[f32]>, left: &mut [f32], right: &mut [f32])
    requires { Covers (option_copied amp) (length left.old) × Covers (option_copied amp) (length right.old) }
    ensures { (left.new ≡ amplified (option_copied amp.entry) left.old) × (right.new ≡ amplified (option_copied amp.entry) right.old) }
{
    amplify_if(amp, left);
    amplify_if(amp, right);
}

// Whether a part is to be settled: the data of `ended` players ended in it, or some player is over.
fn unsettled(ended: usize, over: bool) -> bool
    ensures { result ≡ over || not (eqb ended 0) }
{
    if over {
        return true;
    }
    ended != 0
}

// From event to event: the frames before it sound, then its off times act, and then an edge of the gate. The last part ends with the
// block. Session and voice stay in their places; a call takes them by value only where something happens to them. They are two, since
// of the calls here one takes them as a `Playing` and two as they are: one value would be taken apart for each of the others. The four
// lent parts of the program go down one by one, since players are lent three of them and events two. Two outputs and no struct of both,
// which was tried: a method that lends a part of each gets no proof. What a `Playing` owes is said of the lent words, which it does not
// hold, so it is no ghost field.
pub fn play_frames(
    p: Playing,
    t: BlockTime,
    inputs: Inputs<'_>,
    words: &[u32],
    samples: &[u32],
    pcm: &[f32],
    table: &[f32; 8194],
    left: &mut [f32],
    right: &mut [f32],
) -> Playing
    requires { PlayingOk words.now p × (p.from ≡ 0) × CuesOk (record { time = t; words = words.now; samples = samples.now; pcm = pcm.now; table = table.now; inputs = signals_of inputs }) × (length left.old ≡ t.frames) × (length right.old ≡ t.frames) }
    ensures { ((record { playing = result; left = left.new; right = right.new }) ≡ sounded_from (record { time = t; words = words.now; samples = samples.now; pcm = pcm.now; table = table.now; inputs = signals_of inputs.entry }) (record { playing = p; left = left.old; right = right.old })) × PlayersOk result.voice.players }
{
    let n = t.frames;
    let sounds = Sounds {
        samples,
        frames: pcm,
        table,
    };
    let mut ev = next_event(t, &p.offs, p.voice.gate_prev, inputs.gate, 0);
    let mut session = p.session;
    let mut voice = p.voice;
    let mut waiting = p.offs;
    let mut from = p.from;
    // a `while`: `from` goes on by as many frames as lie before the event, and by none where two events are neighbours
    while from < n {
        if from < ev {
            let m = sound_all(
                voice.players,
                None,
                sounds,
                &mut left[from..ev],
                &mut right[from..ev],
            );
            let players = m.players;
            voice.players = players;
            from = ev;
            let ended = m.ended;
            if unsettled(ended.count, m.over) {
                let b = settle(session, voice, ended);
                session = b.session;
                voice = b.voice;
            }
        }
        if ev < n {
            if first_off(t, &waiting, ev).is_some() {
                let q = Playing {
                    session,
                    voice,
                    offs: waiting,
                    from,
                };
                let r = off_turns(q, words, samples, t, ev);
                session = r.session;
                voice = r.voice;
                waiting = r.offs;
            }
            let g = gate_at(inputs.gate, ev);
            if gate_turns(voice.gate_prev, g) {
                let at = t.offset + (ev as u64);
                let k = strike_at(inputs, ev, at);
                let b = edge(session, voice, words, samples, k, g);
                session = b.session;
                voice = b.voice;
            }
            ev = next_event(t, &waiting, voice.gate_prev, inputs.gate, ev + 1);
        }
    }
    Playing {
        session,
        voice,
        offs: waiting,
        from,
    }
}
