// What is printed after a step.
use events::SampleVoice;
use lister::show::{put_records, put_totals};
use lister::text::Text;
use session::Session;

// The singles of one output.
fn put_output(text: &mut Text, letter: u8, step: u64, frames: &[f32]) {
    text.begin(letter);
    text.number(step);
    for x in frames {
        text.single(*x);
    }
    text.end();
}

// Both outputs of a block.
pub fn put_outputs(text: &mut Text, step: u64, left: &[f32], right: &[f32]) {
    put_output(text, b'L', step, left);
    put_output(text, b'R', step, right);
}

pub fn put_answer(text: &mut Text, step: u64, finished: bool) {
    text.begin(b'A');
    text.number(step);
    text.flag(finished);
    text.end();
}

// The list and the totals.
pub fn put_state(text: &mut Text, step: u64, session: &Session) {
    put_records(text, session, step);
    put_totals(text, session, step);
    text.number(session.event_serial);
    text.end();
}

pub fn put_voice(text: &mut Text, step: u64, v: &SampleVoice) {
    text.begin(b'V');
    text.number(step);
    text.number(v.voice);
    text.number(v.players.count as u64);
    text.number(v.dropped as u64);
    text.number(v.next_slot as u64);
    text.end();
}

// Counter and flag of each region.
pub fn put_sequences(text: &mut Text, step: u64, s: &Session, regions: usize) {
    let pairs = s.seq.seq_counter.iter().zip(&s.seq.seq_on);
    for (region, (counter, on)) in pairs.take(regions).enumerate() {
        text.begin(b'Q');
        text.number(step);
        text.number(region as u64);
        text.number(*counter as u64);
        text.flag(*on);
        text.end();
    }
}
