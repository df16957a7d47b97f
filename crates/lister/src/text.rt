// The text that is written, collected in a buffer: each function puts a piece behind what is there. By functions of its own and not by
// `Display` of records: a K line by nested `write!`s took four times as long.
ghost use Rattle.std.specs.Prelude.{◌≡◌, ◌≤◌, ◌+◌, [], ◌∷◌, to_bits};
ghost use Rattle.std.specs.Float.{binary32};
ghost use Rattle.lines.specs.Print.{last_digits, put};
ghost use Rattle.lister.specs.Text.{place_for};

use exact::order::bits_f32;
use lines::print::put_hex;
use std::fmt;
use std::fmt::Write;

// Standard output.
const STDOUT_FILENO: i32 = 1;

const SIZE: usize = 65536;

// Room for any line that a lister prints.
const LINE: usize = 2049;

// What is still to be written: the first `len` bytes.
#[derive(Drop)]
pub struct Text {
    bytes: [u8; 65536],
    len: usize,
    ghost within: { len ≤ 65536 },
}

// Writes the line that parts what two scripts print.
pub fn part() {
    io::write_all(STDOUT_FILENO, b"=\n");
}

impl Text {
    pub fn new() -> Text {
        Text {
            bytes: io::large_buffer(),
            len: 0,
        }
    }

    // Writes the text. Out of line, as each byte that is put may ask for it.
    #[inline(never)]
    pub fn flush(&mut self)
        ensures { (self.new.len ≡ 0) × (self.new.bytes ≡ self.old.bytes) }
    {
        io::write_all(STDOUT_FILENO, &self.bytes[..self.len]);
        self.len = 0;
    }

    // Room for n bytes: where there is less, what is there is written first. Whole lines are written, since each begins with a line's room.
    fn make_room(&mut self, n: usize)
        requires { n ≤ 65536 }
        ensures place { (self.new.len ≡ place_for n self.old.len) × (self.new.bytes ≡ self.old.bytes) }
        ensures room { self.new.len + n ≤ 65536 }
    {
        if SIZE - n < self.len {
            self.flush();
        }
    }

    // A byte more.
    fn put(&mut self, b: u8)
        ensures { record { at = self.new.len; text = self.new.bytes } ≡ put self.old.bytes (place_for 1 self.old.len) (b ∷ []) }
    {
        self.make_room(1);
        self.bytes[self.len] = b;
        self.len += 1;
    }

    // The letter of a line.
    pub fn begin(&mut self, letter: u8) {
        self.make_room(LINE);
        self.put(letter);
    }

    fn decimal(&mut self, n: u64) {
        let mut digits = [0u8; 20];
        let k = io::decimal(n, &mut digits);
        for b in &digits[..k] {
            self.put(*b);
        }
    }

    // A comma and the number.
    pub fn number(&mut self, n: u64) {
        self.put(b',');
        self.decimal(n);
    }

    // A comma and the number, which may be below 0.
    pub fn signed(&mut self, n: i32) {
        self.put(b',');
        if n < 0 {
            self.put(b'-');
        }
        self.decimal(n.unsigned_abs() as u64);
    }

    // A comma and 1 or 0.
    pub fn flag(&mut self, b: bool) {
        self.number(b as u64);
    }

    // A comma and `-`, for none.
    pub fn none(&mut self) {
        self.put(b',');
        self.put(b'-');
    }

    // A comma and the bits of a single.
    pub fn single(&mut self, x: f32)
        ensures { record { at = self.new.len; text = self.new.bytes } ≡ put self.old.bytes (place_for 9 self.old.len) (44 ∷ last_digits 16 8 (to_bits binary32 x)) }
    {
        self.make_room(9);
        let at = self.len;
        self.bytes[at] = b',';
        self.len = put_hex(&mut self.bytes, at + 1, bits_f32(x));
    }

    pub fn end(&mut self) {
        self.put(b'\n');
    }

    // A line more.
    pub fn line<D: fmt::Display + Drop>(&mut self, d: D) {
        self.make_room(LINE);
        let _ = writeln!(self, "{d}");
    }
}

impl fmt::Write for Text {
    fn write_str(&mut self, s: &str) -> fmt::Result {
        for b in s.as_bytes() {
            self.put(*b);
        }
        Ok(())
    }
}
