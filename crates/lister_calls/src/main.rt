// Public calls of the listers' crates that no lister makes: scripts that are performed by a closure, each by a script of its own, which is
// never performed again; the totals within another line; and lines that are longer than the buffer. Behind five lines of totals the digits
// of a single in the L line would pass the buffer's end by one.
#![tactic(auto)]

use block_parts::show::put_outputs;
use lister::feed::{Feed, replay};
use lister::script::{Script, perform};
use lister::show::Totals;
use lister::text::Text;
use session::fresh_session;
use std::fmt;

// So many times the ten digits.
#[derive(Drop)]
struct Tens(u64);

impl fmt::Display for Tens {
    fn fmt<W: fmt::Write>(&self, f: &mut fmt::Formatter<W>) -> fmt::Result {
        for _ in 0..self.0 {
            write!(f, "0123456789")?;
        }
        Ok(())
    }
}

// `T` asks for the totals, `W` for a wide line, `O` for the lines of two outputs; any other line is turned back.
#[derive(Drop)]
struct Calls {
    lines: u64,
}

impl Script for Calls {
    type Refusal = &'static str;

    fn take(&mut self, text: &mut Text, number: u64, line: &[u8]) -> Result<(), &'static str> {
        self.lines = self.lines.saturating_add(1);
        match line {
            b"T" => {
                let mut session = fresh_session();
                session.count = 2;
                session.held = 3;
                let totals = Totals {
                    step: self.lines,
                    session: &session,
                };
                text.line(format_args!("{number},{totals}"));
            }
            b"W" => text.line(Tens(7000)),
            b"O" => put_outputs(text, number, &[-0.0; 7400], &[1.0; 3]),
            _ => return Err("no call"),
        }
        Ok(())
    }
}

fn main() {
    replay(|feed: &mut Feed| perform(feed, &mut Text::new(), &mut Calls { lines: 0 }));
}
