// What is printed.
use super::command::Form;
use session::{PlayerRecord, Session};
use std::fmt::{self, Display, Formatter};
use std::io;

// A value, or `-` for none.
#[derive(Drop)]
struct OrDash<T>(Option<T>);

impl<T: Display> Display for OrDash<T> {
    fn fmt<W: fmt::Write>(&self, f: &mut Formatter<W>) -> fmt::Result {
        match &self.0 {
            Some(x) => write!(f, "{x}"),
            None => write!(f, "-"),
        }
    }
}

// A group from -1 to 5, which are all that the lists have.
#[derive(Drop)]
struct Group(i32);

impl Display for Group {
    fn fmt<W: fmt::Write>(&self, f: &mut Formatter<W>) -> fmt::Result {
        match self.0 {
            -1..=5 => write!(f, "{}", self.0),
            _ => write!(f, "?"),
        }
    }
}

// What a K line says behind its step.
#[derive(Drop)]
struct Record(PlayerRecord);

impl Display for Record {
    fn fmt<W: fmt::Write>(&self, f: &mut Formatter<W>) -> fmt::Result {
        let r = self.0;
        write!(
            f,
            "{},{},{},{},{},{},{},{},{},{},{}",
            r.voice,
            r.slot,
            r.region,
            Group(r.group),
            OrDash(r.off_by.map(Group)),
            r.note,
            r.vel,
            u8::from(r.on_note),
            r.start,
            u8::from(r.offed),
            OrDash(r.off_at),
        )
    }
}

// A K line for each record, and a T line.
pub fn list(rt: &impl Print, s: &Session, step: u64) -> io::Result<()> {
    for r in s.players.iter().take(s.count) {
        println!(rt; "K,{step},{}", Record(*r))?;
    }
    println!(rt; "T,{step},{},{}", s.count, s.held)
}

// Live voices, an id twice, a stray record, records, records of one voice, held gates, a region, slots in order.
pub fn tests(rt: &impl Print, s: Session, form: Form) -> io::Result<()> {
    let answers = [
        session::over_live(&s),
        session::twice_live(&s),
        session::stray_record(&s),
        session::over_records(&s),
        session::over_voice(&s),
        session::over_held(&s),
        session::region_outside(&s, form.regions),
        session::slots_in_order(&s, form.voice, form.slots),
    ];
    print!(rt; "8")?;
    for answer in answers {
        print!(rt; ",{}", u8::from(answer))?;
    }
    println!(rt)
}
