// What both listers print.
ghost use Rattle.std.specs.Prelude.{◌++◌, Some, codes, decimal};

use super::text::Text;
use session::{PlayerRecord, Session};
use std::fmt;

// step, voice, slot, region, group, off_by
fn put_who(text: &mut Text, r: &PlayerRecord, step: u64) {
    text.number(step);
    text.number(r.voice);
    text.number(r.slot as u64);
    text.number(r.region as u64);
    text.signed(r.group);
    match r.off_by {
        None => text.none(),
        Some(group) => text.signed(group),
    }
}

// note, vel, on_note, start, offed, off_at
fn put_what(text: &mut Text, r: &PlayerRecord) {
    text.number(r.note as u64);
    text.number(r.vel as u64);
    text.flag(r.on_note);
    text.number(r.start);
    text.flag(r.offed);
    match r.off_at {
        None => text.none(),
        Some(at) => text.number(at),
    }
}

// A K line for each record.
pub fn put_records(text: &mut Text, s: &Session, step: u64) {
    for r in &s.players[..s.count.min(512)] {
        text.begin(b'K');
        put_who(text, r, step);
        put_what(text, r);
        text.end();
    }
}

// What a T line says in both listers; its end is the caller's.
pub fn put_totals(text: &mut Text, s: &Session, step: u64) {
    text.begin(b'T');
    text.number(step);
    text.number(s.count as u64);
    text.number(s.held as u64);
}

// The same for any writer: a line's text, without its end.
#[derive(Drop)]
pub struct Totals<'a> {
    pub step: u64,
    pub session: &'a Session,
}

impl fmt::Display for Totals<'_> {
    ghost output = { λ t. Some (codes "T," ++ (decimal t.step ++ (codes "," ++ (decimal t.session.now.count ++ (codes "," ++ decimal t.session.now.held))))) };

    fn fmt<W: fmt::Write>(&self, f: &mut fmt::Formatter<W>) -> fmt::Result {
        write!(
            f,
            "T,{},{},{}",
            self.step, self.session.count, self.session.held
        )
    }
}
