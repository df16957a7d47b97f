// What a start does to the session and to a voice, and a note's release regions: the Rust's `start_region` and `dispatch_release`.
#![tactic(auto)]

pub mod start;

ghost use Rattle.std.specs.Prelude.{◌≤◌};
ghost use Rattle.events.specs.Voice.{Bindable};

use note::NoteState;
use players::Players;
use program::bind::BoundProgram;
use session::Session;

// One note of a bound program: the Rust's `SampleVoice`. The off times of a block are the block's own.
#[derive(Clone, Copy)]
pub struct SampleVoice {
    pub voice: u64,
    pub sample_rate: f32,
    pub program: BoundProgram,
    pub gate_prev: bool,
    pub gate_held: bool,
    pub note: Option<NoteState>,
    pub started: bool,
    pub players: Players,
    pub next_slot: u32,
    // Regions that the voice could not start for want of a player's place.
    pub dropped: u32,
}

// The session and a voice, as an event leaves them.
#[derive(Clone, Copy)]
pub struct Both {
    pub session: Session,
    pub voice: SampleVoice,
}

// The words of a bound program's regions and of its samples, how many regions they are, and what binding has found of them.
#[derive(Clone, Copy)]
pub struct Kit<'a> {
    pub words: &'a [u32],
    pub samples: &'a [u32],
    pub regions: u32,
    pub ghost bindable: { Bindable words.now },
    pub ghost few: { regions ≤ 256 },
}

// What a start has of its event: for how long the note was held stands beside the kind, as in a player's event.
#[derive(Clone, Copy)]
pub struct Cause {
    pub serial: u64,
    pub at: u64,
    pub kind: player::start::Cause,
    pub held_secs: f32,
}

// What an event starts regions with.
#[derive(Clone, Copy)]
pub struct Stroke {
    pub note: NoteState,
    pub cause: Cause,
}
