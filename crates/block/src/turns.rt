// What happens on a frame: the off times that fall on it, and then an edge of the gate.
ghost use Rattle.std.specs.Prelude.{◌≡◌, ◌+◌, ◌<◌, ◌^◌};
ghost use Rattle.session.specs.Offs.{first_at};
ghost use Rattle.block.specs.Block.{off_list, falls_on, off_turn, off_turns, edge_turned};
ghost use Rattle.block.specs.Ready.{VoiceOk, PlayingOk};

use super::inputs::{first_off, swap_remove};
use super::{BlockTime, Playing};
use events::{Both, Kit, SampleVoice};
use gates::gate::{note_off, note_on};
use gates::off::apply_off;
use note::Strike;
use session::Session;

// The off time at j, the first on frame i, is taken, and acts.
fn off_turn(p: Playing, words: &[u32], samples: &[u32], t: BlockTime, i: usize, j: usize) -> Playing
    requires { PlayingOk words.now p × (t.offset + i < 2 ^ 64) × (j ≡ first_at (falls_on t i) (off_list p.offs)) × (j < p.offs.count) }
    ensures { (result ≡ off_turn (record { words = words.entry.now; samples = samples.now }) t i p) × PlayingOk words.entry.now result }
{
    let mut offs = p.offs;
    let slot = offs.offs[j].slot;
    let at = t.offset + (i as u64);
    let kit = Kit {
        words,
        samples,
        regions: p.voice.program.regions,
    };
    let both = Both {
        session: p.session,
        voice: p.voice,
    };
    let b = apply_off(both, kit, slot, at);
    swap_remove(&mut offs, j);
    Playing {
        session: b.session,
        voice: b.voice,
        offs,
        from: p.from,
    }
}

// The off times on frame i act, first by first, until none is left.
pub fn off_turns(p: Playing, words: &[u32], samples: &[u32], t: BlockTime, i: usize) -> Playing
    requires { PlayingOk words.now p × (t.offset + i < 2 ^ 64) }
    ensures { (result ≡ off_turns (record { words = words.entry.now; samples = samples.now }) t i p.offs.count p) × PlayingOk words.entry.now result }
{
    let mut q = p;
    while let Some(j) = first_off(t, &q.offs, i) {
        q = off_turn(q, words, samples, t, i, j);
    }
    q
}

// The gate goes to g.
pub fn edge(s: Session, v: SampleVoice, words: &[u32], samples: &[u32], x: Strike, g: bool) -> Both
    requires { VoiceOk words.now v }
    ensures { (result ≡ edge_turned (record { words = words.entry.now; samples = samples.now }) x g (record { session = s; voice = v })) × VoiceOk words.entry.now result.voice }
{
    let kit = Kit {
        words,
        samples,
        regions: v.program.regions,
    };
    let turned = Both {
        session: s,
        voice: SampleVoice { gate_prev: g, ..v },
    };
    // two calls by a bool: an enum of the two edges would be made from g here, and used once
    if g {
        note_on(turned, kit, x)
    } else {
        note_off(turned, kit, x.at)
    }
}
