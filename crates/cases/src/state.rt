// States for the cases: one that calls lead to, and others made by hand from it.
use super::lend::{Lent, bound, lent_with, program, regions};
use block::BlockTime;
use block::inputs::Inputs;
use events::{Both, SampleVoice};
use filter::{Coefficients, FilterShape};
use player::Player;
use players::Players;
use session::{Session, Start, enter_record, fresh_session};
use voice::{block, make};

pub const RATE: f32 = 44100.0;

// ---- sessions

// n voices made, one after the other.
pub fn made(n: u32) -> Session {
    let p = program();
    (0..n).fold(fresh_session(), |s, _| make(s, RATE, p).session)
}

// The first voice of n.
pub fn first_of(n: u32) -> Both {
    Both {
        session: made(n),
        voice: make(fresh_session(), RATE, program()).voice,
    }
}

fn start_of(voice: u64, region: u32) -> Start {
    Start {
        voice,
        region,
        group: 0,
        off_by: None,
        note: 60,
        vel: 100,
        on_note: true,
        serial: 1,
        at: 0,
        note_polyphony: None,
        polyphony: None,
    }
}

pub fn with_record(s: Session, voice: u64, slot: u32, region: u32) -> Session {
    enter_record(s, start_of(voice, region), slot)
}

// n records of one voice, slots 0 up.
pub fn with_records(s: Session, voice: u64, n: u32) -> Session {
    (0..n).fold(s, |s, slot| with_record(s, voice, slot, 0))
}

// 32 records of each of sixteen voices: 512.
pub fn with_all(s: Session) -> Session {
    (1..17).fold(s, |s, voice| with_records(s, voice, 32))
}

// ---- players

// A voice whose 32 places hold its first player, slots 0 to 31.
pub fn crowded(v: SampleVoice) -> SampleVoice {
    let mut players = [v.players.players[0]; 32];
    for (slot, p) in (0..32).zip(&mut players) {
        p.slot = slot;
    }
    SampleVoice {
        players: Players { players, count: 32 },
        ..v
    }
}

// Stages in the last filter slot.
pub fn set_stages(p: &mut Player, stages: u8) {
    let c = Coefficients {
        b0: 1.0,
        b1: 0.0,
        b2: 0.0,
        a1: 0.0,
        a2: 0.0,
    };
    p.slots[5] = FilterShape::Biquad { c, stages };
}

// ---- one that calls lead to

// What a block with no input connected leads to, which is a gate that is up.
pub fn played(b: &Both, t: BlockTime, lent: Lent<'_>) -> Both {
    let m = block(
        b.session,
        b.voice,
        t,
        Inputs::default(),
        lent.words,
        lent.samples,
        lent.pcm,
        lent.table,
        &mut [0.0f32; 128],
        &mut [0.0f32; 128],
    );
    Both {
        session: m.session,
        voice: m.voice,
    }
}

// The first voice of its session.
pub fn fresh(lent: Lent<'_>) -> Both {
    let m = make(fresh_session(), RATE, bound(lent));
    Both {
        session: m.session,
        voice: m.voice,
    }
}

// Voice 1 after two blocks of 4 frames with its gate up: player 0 is silence, player 1 loops.
pub fn good() -> Both {
    let words = regions();
    let lent = lent_with(words.as_flattened());
    let first = BlockTime {
        frames: 4,
        offset: 0,
    };
    let second = BlockTime {
        frames: 4,
        offset: 4,
    };
    played(&played(&fresh(lent), first, lent), second, lent)
}
