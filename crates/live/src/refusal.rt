// Why a line is turned back.
use program::bind::BindError;
use std::fmt;
use voice::Refusal as CallRefusal;

#[derive(Clone, Copy)]
pub enum Refusal {
    // The program that the first voice would play.
    Program(BindError),
    // A call on a voice.
    Call(CallRefusal),
    // The line cannot be read, may not stand where it does, or names no live voice.
    Unreadable,
}

impl From<BindError> for Refusal {
    fn from(e: BindError) -> Refusal {
        Refusal::Program(e)
    }
}

impl From<CallRefusal> for Refusal {
    fn from(e: CallRefusal) -> Refusal {
        Refusal::Call(e)
    }
}

impl Refusal {
    // The region or sample that binding found bad.
    pub fn part(self) -> Option<u32> {
        match self {
            Refusal::Program(e) => e.part(),
            _ => None,
        }
    }

    // 01's number; 10 is the listers' own.
    fn number(self) -> u64 {
        match self {
            Refusal::Program(e) => e.number(),
            Refusal::Call(e) => e.number(),
            Refusal::Unreadable => 10,
        }
    }
}

impl fmt::Display for Refusal {
    fn fmt<W: fmt::Write>(&self, f: &mut fmt::Formatter<W>) -> fmt::Result {
        write!(f, "{}", self.number())
    }
}
