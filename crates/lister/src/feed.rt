// Standard input line by line, through a buffer that is filled again when less than a whole line may be left in it.
ghost use Rattle.std.specs.Prelude.{◌≡◌, ◌≤◌};

use super::text::part;

// No text has more lines.
pub const LAST: u64 = 0x8000_0000_0000_0000;

// The longest line that is read, without its newline.
const LONGEST: usize = 4096;

// What the input holds: one script, or many that are parted by lines `=`.
#[derive(Clone, Copy, PartialEq)]
pub enum Scripts {
    One,
    Many,
}

// What came last: a line, the line `=` that parts two scripts, or the input's end.
#[derive(Clone, Copy, PartialEq)]
enum Last {
    Line,
    Parting,
    End,
}

// The bytes from..to of the buffer are still to be taken; `ended` where no more follow.
#[derive(Clone, Copy)]
pub struct Feed {
    buf: [u8; 65536],
    from: usize,
    to: usize,
    ended: bool,
    scripts: Scripts,
    last: Last,
    ghost ordered: { from ≤ to },
    ghost within: { to ≤ 65536 },
}

impl Feed {
    // Nothing is read yet.
    pub fn new(scripts: Scripts) -> Feed
        ensures from { result.from ≡ 0 }
        ensures to { result.to ≡ 0 }
    {
        Feed {
            buf: io::large_buffer(),
            from: 0,
            to: 0,
            ended: false,
            scripts,
            last: Last::Line,
        }
    }

    // What is left moves to the front, and the rest of the buffer is read anew.
    fn refill(&mut self) {
        let left = self.to - self.from;
        self.buf.copy_within(self.from..self.to, 0);
        let got = io::read_full(0, &mut self.buf[left..]);
        self.from = 0;
        self.to = left + got;
        self.ended = self.to < self.buf.len();
    }

    // The next line without its newline, which the last one may lack, or none where the script is over. A line above 4,096 bytes comes
    // as an empty one, which cannot be read either.
    pub fn next_line(&mut self) -> Option<&[u8]> {
        if !self.ended && self.to - self.from <= LONGEST {
            self.refill();
        }
        let scripts = self.scripts;
        let from = self.from;
        let rest = &self.buf[from..self.to];
        let len = rest.iter().position(|b| *b == b'\n').unwrap_or(rest.len());
        self.last = match &rest[..len] {
            b"=" if scripts == Scripts::Many => Last::Parting,
            _ if rest.is_empty() => Last::End,
            _ => Last::Line,
        };
        self.from = (from + len + 1).min(self.to);
        if self.last != Last::Line {
            return None;
        }
        if LONGEST < len {
            return Some(&[]);
        }
        Some(&self.buf[from..from + len])
    }

    // What is left of a script is passed over.
    pub(crate) fn skip(&mut self) {
        for _ in 0..LAST {
            if self.last != Last::Line {
                return;
            }
            let _ = self.next_line();
        }
    }

    // Whether another script follows.
    pub(crate) fn goes_on(&self) -> bool {
        self.last == Last::Parting
    }
}

// Calls `perform` for each script of an input that has many, and parts what they print. A script of its own for each, or any other reader
// of the lines, may be behind it; one script that is used again is performed by `script::replay`.
pub fn replay<P: Fn(&mut Feed) + Drop>(perform: P)
    requires { P.IsAlwaysCallable perform }
{
    let mut feed = Feed::new(Scripts::Many);
    for _ in 0..LAST {
        perform(&mut feed);
        feed.skip();
        if !feed.goes_on() {
            return;
        }
        part();
    }
}
