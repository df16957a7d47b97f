// The numbers of a line. Any line has all of them: a field that is not there is 0, one of a narrower type loses its upper bits, and what
// stands behind a field's digits is passed over.
use session::{Slots, Window};

// How many are kept; a line may have more.
const KEPT: usize = 40;

// `-`, which no digits give.
const NONE: u64 = 0xffff_ffff_ffff_ffff;

#[derive(Clone, Copy)]
pub struct Fields {
    pub numbers: [u64; KEPT],
}

// A field's digits up to the first other byte. Of more than 2^60 only the lower bits go on.
fn number(field: &[u8]) -> u64 {
    if field.first() == Some(&b'-') {
        return NONE;
    }
    let mut n: u64 = 0;
    for d in field {
        if *d < b'0' || b'9' < *d {
            break;
        }
        n = n % 0x1000_0000_0000_0000 * 10 + ((*d - b'0') as u64);
    }
    n
}

// The lower 32 bits.
pub fn word(n: u64) -> u32 {
    (n % 0x1_0000_0000) as u32
}

// The lower eight.
pub fn byte(n: u64) -> u8 {
    (n % 256) as u8
}

// A group: -1 is written as its 32 bits.
pub fn group(n: u64) -> i32 {
    if n == 0xffff_ffff {
        return -1;
    }
    (n % 0x8000_0000) as i32
}

// `-`, or a number.
pub fn option(n: u64) -> Option<u64> {
    if n == NONE { None } else { Some(n) }
}

impl Fields {
    // Those of the bytes behind a line's letter: each stands behind a comma.
    pub fn read(line: &[u8]) -> Fields {
        let mut numbers = [0; KEPT];
        for (k, field) in line.split(|b| *b == b',').skip(1).enumerate() {
            if let Some(n) = numbers.get_mut(k % 64) {
                *n = number(field);
            }
        }
        Fields { numbers }
    }

    // The window that an S line ends with.
    pub fn window(self) -> Window {
        let f = self.numbers;
        Window {
            lokey: byte(f[13]),
            hikey: byte(f[14]),
            lovel: byte(f[15]),
            hivel: byte(f[16]),
        }
    }

    // The slot in field 1.
    pub fn slot(self) -> Slots {
        let mut slots = [0; 32];
        slots[0] = word(self.numbers[1]);
        Slots { slots, count: 1 }
    }

    // The slots from field 3 on, as many as field 2 says.
    pub fn slots(self) -> Slots {
        let mut slots = [0; 32];
        for (slot, n) in slots.iter_mut().zip(&self.numbers[3..35]) {
            *slot = word(*n);
        }
        Slots {
            slots,
            count: (self.numbers[2] % 64) as usize,
        }
    }
}
