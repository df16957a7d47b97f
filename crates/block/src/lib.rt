// A block of a voice: the Rust's `process`, once the tests of the call have passed. Off times are collected, pitch is set, then events by
// frame with the frames between them, and the amp input last.
#![tactic(auto)]

pub mod calm;
pub mod frames;
pub mod inputs;
pub mod render;
pub mod turns;

ghost use Rattle.std.specs.Prelude.{◌≡◌, ◌≤◌, length, take};
ghost use Rattle.players.specs.Seats.{PlayersOk};
ghost use Rattle.block.specs.Inputs.{Reaches, signals_of};
ghost use Rattle.block.specs.Block.{retuned_voice, started_block, played_block};
ghost use Rattle.block.specs.Ready.{Ready};

use calm::tune_of;
use events::{Both, SampleVoice};
use frames::{amplify_both, clear_both, play_frames};
use gates::off::with_players;
use inputs::Inputs;
use players::retune;
use session::{Offs, Session, collect_offs};

// How many frames a block has, and the time of its first.
#[derive(Clone, Copy)]
pub struct BlockTime {
    pub frames: usize,
    pub offset: u64,
}

// A block under way: its off times still to act, and the frame up to which it has sounded.
#[derive(Drop)]
pub struct Playing {
    pub session: Session,
    pub voice: SampleVoice,
    pub offs: Offs,
    pub from: usize,
}

// The pitch of a sounding note: this block's first frequency and bend.
fn retune_voice(v: SampleVoice, inputs: Inputs<'_>) -> SampleVoice
    requires { PlayersOk v.players × Reaches (signals_of inputs).freq 0 × Reaches (signals_of inputs).bend 0 }
    ensures { (result ≡ retuned_voice (signals_of inputs.entry) v) × PlayersOk result.players }
{
    let Some(tune) = tune_of(v.note, inputs) else {
        return v;
    };
    let players = retune(v.players, tune);
    with_players(v, players)
}

// Own off times are collected; pitch is set for all players.
fn start_block(s: Session, v: SampleVoice, inputs: Inputs<'_>) -> Playing
    requires { PlayersOk v.players × Reaches (signals_of inputs).freq 0 × Reaches (signals_of inputs).bend 0 }
    ensures { (result ≡ started_block (signals_of inputs.entry) s v) × PlayersOk result.voice.players }
{
    let id = v.voice;
    let o = collect_offs(s, id);
    let session = o.session;
    let offs = o.offs;
    let voice = retune_voice(v, inputs);
    Playing {
        session,
        voice,
        offs,
        from: 0,
    }
}

// The table's entries; those behind them are not read.
fn entries_of(table: &[f32]) -> &[f32; 8194]
    requires { 8194 ≤ length table.now }
    ensures { result.now ≡ take 8194 table.now }
{
    table.first_chunk::<8194>().unwrap()
}

// One block into both outputs, each as long as the block.
pub fn play_block(
    s: Session,
    v: SampleVoice,
    t: BlockTime,
    inputs: Inputs<'_>,
    words: &[u32],
    samples: &[u32],
    pcm: &[f32],
    table: &[f32],
    left: &mut [f32],
    right: &mut [f32],
) -> Both
    requires { Ready (record { time = t; words = words.now; samples = samples.now; pcm = pcm.now; table = table.now; inputs = signals_of inputs; left = left.old; right = right.old }) v }
    ensures { ((record { both = result; left = left.new; right = right.new }) ≡ played_block (record { time = t; words = words.now; samples = samples.now; pcm = pcm.now; table = table.now; inputs = signals_of inputs.entry; left = left.old; right = right.old }) s v) × PlayersOk result.voice.players }
{
    clear_both(left, right);
    let p = start_block(s, v, inputs);
    let entries = entries_of(table);
    let q = play_frames(p, t, inputs, words, samples, pcm, entries, left, right);
    amplify_both(inputs.amp, left, right);
    let session = q.session;
    let voice = q.voice;
    Both { session, voice }
}
