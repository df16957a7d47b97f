// A script, performed line by line.
use super::feed::{Feed, LAST, Scripts};
use super::text::{Text, part};
use std::fmt;

pub trait Script {
    // Why a line is turned back, as an E line says it.
    type Refusal: fmt::Display + Drop;

    // Does what a line says, and prints what that leaves. The line's number is for what it prints.
    fn take(&mut self, text: &mut Text, number: u64, line: &[u8]) -> Result<(), Self::Refusal>;
}

// A script that can be performed again.
pub trait Again: Script {
    // Forgets what was done, so that the next script begins as the first did. One made anew for each script would cost its whole
    // memory, most of which a script does not use, some four times over.
    fn forget(&mut self);
}

// Performs a script up to its end, or to a line that is turned back.
pub fn perform<S: Script>(feed: &mut Feed, text: &mut Text, script: &mut S) {
    for number in 1..=LAST {
        let Some(line) = feed.next_line() else {
            break;
        };
        if let Err(refusal) = script.take(text, number, line) {
            text.line(format_args!("E,{number},{refusal}"));
            break;
        }
    }
    text.flush();
}

// Performs each script of an input that has many, and parts what they print likewise.
pub fn replay<S: Again>(script: &mut S) {
    let mut feed = Feed::new(Scripts::Many);
    let mut text = Text::new();
    for _ in 0..LAST {
        perform(&mut feed, &mut text, script);
        feed.skip();
        if !feed.goes_on() {
            return;
        }
        part();
        script.forget();
    }
}
