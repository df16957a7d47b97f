// What the lines mean, and the session that they act on.
use super::call::Call;
use super::fields::{Fields, word};
use super::show;
use session::{Session, Slots};
use std::io;

#[derive(Clone, Copy)]
pub enum Command {
    Fresh,
    Call(Call),
    Set(Setting),
    Print,
    Test(Form),
}

// One number of the session, which no call would leave so.
#[derive(Clone, Copy)]
pub enum Setting {
    Records(usize),
    Voices(usize),
    Held(u32),
    Id { place: usize, id: u64 },
    Serial(u64),
    NextVoice(u64),
}

// What the session's form is tested against: a program of so many regions, and a voice whose players have these slots.
#[derive(Clone, Copy)]
pub struct Form {
    pub regions: u32,
    pub voice: u64,
    pub slots: Slots,
}

// The session, and how many steps were printed.
#[derive(Clone, Copy)]
pub struct Replay {
    session: Session,
    step: u64,
}

impl Command {
    // None of a letter that says nothing.
    pub fn read(letter: u8, fields: Fields) -> Option<Command> {
        match letter {
            b'I' => Some(Command::Fresh),
            b'J' => Some(Command::Set(Setting::read(fields))),
            b'P' => Some(Command::Print),
            b'8' => Some(Command::Test(Form::read(fields))),
            _ => Call::read(letter, fields).map(Command::Call),
        }
    }
}

impl Form {
    fn read(fields: Fields) -> Form {
        Form {
            regions: word(fields.numbers[0]),
            voice: fields.numbers[1],
            slots: fields.slots(),
        }
    }
}

impl Setting {
    fn read(fields: Fields) -> Setting {
        let f = fields.numbers;
        match f[0] {
            0 => Setting::Records((f[2] % 1024) as usize),
            1 => Setting::Voices((f[2] % 64) as usize),
            2 => Setting::Held(word(f[2])),
            3 => Setting::Id {
                place: (f[1] % 64) as usize,
                id: f[2],
            },
            4 => Setting::Serial(f[2]),
            _ => Setting::NextVoice(f[2]),
        }
    }

    fn put(self, s: &mut Session) {
        match self {
            Setting::Records(n) => s.count = n,
            Setting::Voices(n) => s.voices.count = n,
            Setting::Held(n) => s.held = n,
            Setting::Id { place, id } => {
                if let Some(x) = s.voices.ids.get_mut(place) {
                    *x = id;
                }
            }
            Setting::Serial(n) => s.event_serial = n,
            Setting::NextVoice(n) => s.voices.next_voice = n,
        }
    }
}

impl Replay {
    pub fn new() -> Replay {
        Replay {
            session: session::fresh_session(),
            step: 0,
        }
    }

    pub fn obey(&mut self, rt: &impl Print, command: Command) -> io::Result<()> {
        match command {
            Command::Fresh => *self = Replay::new(),
            Command::Call(call) => self.session = call.made(self.session),
            Command::Set(setting) => setting.put(&mut self.session),
            Command::Print => {
                self.step = self.step % 0x1_0000_0000 + 1;
                show::list(rt, &self.session, self.step)?;
            }
            Command::Test(form) => show::tests(rt, self.session, form)?,
        }
        Ok(())
    }
}
