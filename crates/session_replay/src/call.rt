// The calls of the session.
use super::fields::{Fields, byte, group, option, word};
use session::{Session, Slots, Start, Window};

#[derive(Clone, Copy)]
pub enum Call {
    Voice,
    NoteOn,
    NoteOff,
    Event,
    Sequence {
        region: u32,
        length: u32,
        position: u32,
    },
    Attempt(Attempt),
    TakeOffs(u64),
    Collect(u64),
    Remove(u64, Slots),
    End(u64, Slots),
    Reset(u64, bool),
    Close(u64, bool),
}

// A region that starts where its sequence and its trigger let it, in the next event.
#[derive(Clone, Copy)]
pub struct Attempt {
    slot: u32,
    start: Start,
    entered: bool,
    trigger: Trigger,
    window: Window,
}

// In the Rust's order.
#[derive(Clone, Copy)]
pub enum Trigger {
    Attack,
    Release,
    ReleaseKey,
    First,
    Legato,
}

impl Trigger {
    // Any other number lets a region start, as an attack does.
    fn of(n: u64) -> Trigger {
        match n {
            1 => Trigger::Release,
            2 => Trigger::ReleaseKey,
            3 => Trigger::First,
            4 => Trigger::Legato,
            _ => Trigger::Attack,
        }
    }

    // Whether it lets a region start; a release region asks for its attack.
    fn fires(self, s: Session, attack: Window) -> bool {
        match self {
            Trigger::Attack | Trigger::ReleaseKey => true,
            Trigger::Release => session::attack_playing(s, attack),
            Trigger::First => s.held == 1,
            Trigger::Legato => 1 < s.held,
        }
    }
}

impl Attempt {
    fn read(fields: Fields) -> Attempt {
        let f = fields.numbers;
        Attempt {
            slot: word(f[1]),
            start: Start {
                voice: f[0],
                region: word(f[2]),
                group: group(f[3]),
                off_by: option(f[4]).map(group),
                note: byte(f[5]),
                vel: byte(f[6]),
                on_note: f[7] == 1,
                serial: 0,
                at: f[8],
                note_polyphony: option(f[9]).map(word),
                polyphony: option(f[10]).map(word),
            },
            entered: f[11] != 0,
            trigger: Trigger::of(f[12]),
            window: fields.window(),
        }
    }

    fn made(self, s: Session) -> Session {
        if !session::seq_is_on(s, self.start.region) || !self.trigger.fires(s, self.window) {
            return s;
        }
        let start = Start {
            serial: s.event_serial,
            ..self.start
        };
        let t = session::start_marks(s, start);
        if self.entered {
            session::enter_record(t, start, self.slot)
        } else {
            t
        }
    }
}

// The voice's off times are taken one by one, as after a rising gate.
fn take_offs(s: Session, voice: u64) -> Session {
    (0..40).fold(s, |t, _| session::take_first_off(t, voice).session)
}

impl Call {
    // None of a letter that is no call's.
    pub fn read(letter: u8, fields: Fields) -> Option<Call> {
        let f = fields.numbers;
        match letter {
            b'V' => Some(Call::Voice),
            b'N' => Some(Call::NoteOn),
            b'M' => Some(Call::NoteOff),
            b'W' => Some(Call::Event),
            b'Q' => Some(Call::Sequence {
                region: word(f[0]),
                length: word(f[1]),
                position: word(f[2]),
            }),
            b'S' => Some(Call::Attempt(Attempt::read(fields))),
            b'F' => Some(Call::TakeOffs(f[0])),
            b'C' => Some(Call::Collect(f[0])),
            b'G' => Some(Call::Remove(f[0], fields.slot())),
            b'X' => Some(Call::End(f[0], fields.slot())),
            b'Z' => Some(Call::Reset(f[0], f[1] == 1)),
            b'D' => Some(Call::Close(f[0], f[1] == 1)),
            _ => None,
        }
    }

    // The session after it.
    pub fn made(self, s: Session) -> Session {
        match self {
            Call::Voice => session::new_voice(s).session,
            Call::NoteOn => session::raise_held(session::next_serial(s)),
            Call::NoteOff => session::next_serial(session::lower_held(s)),
            Call::Event => session::next_serial(s),
            Call::Sequence {
                region,
                length,
                position,
            } => session::seq_step(s, region, length, position),
            Call::Attempt(attempt) => attempt.made(s),
            Call::TakeOffs(voice) => take_offs(s, voice),
            Call::Collect(voice) => session::collect_offs(s, voice).session,
            Call::Remove(voice, slots) => session::remove_slots(s, voice, slots),
            Call::End(voice, slots) => session::mark_ended(s, voice, slots),
            Call::Reset(voice, gate) => session::end_voice(s, voice, gate),
            Call::Close(voice, gate) => session::close_voice(s, voice, gate),
        }
    }
}
