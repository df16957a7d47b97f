// Where the taps of four frames fall in the table, which is worked out once for all channels.
ghost use Rattle.std.specs.Prelude.{◌≡◌, Bool, true, false, not, ◌+◌, ◌*◌, ◌≤◌, ◌<◌, min, T, set, length, replicate};
ghost use Rattle.std.specs.Float.Ieee.{is_nan, lt, le, to_unsigned};
ghost use Rattle.exact.specs.Value.{plus};
ghost use Rattle.exact.specs.Single.{single, ◌⊖◌, f0, f1, f16, f8193};
ghost use Rattle.exact.specs.Order.{magnitude};
ghost use Rattle.interp.specs.Places.{place_of, weight_at};
ghost use Rattle.lanes.specs.Four.{Inside, Parts, Rows, Low, TapOf, Few};

use crate::four::{Four, Tap};
use interp::sinc::SincSpan;
use interp::tap::{TapPlace, whole};

// In the table the entry at or before each tap, and the part of the way to the next one. Tap k of the four has the places from 4 k on.
// Flat lists, with the entry 8193 outside the window: as rows of four `Option<TapPlace>` each, with an `Option` for each weight too,
// 32 stereo players took 5 % more time (12.3 ms a block against 11.7, both built without proofs), and of the sinc loads' 0.45 of the
// Rust's time none is to spare.
#[derive(Drop)]
pub struct Places {
    pub entries: [u32; 320],
    pub parts: [f32; 320],
}

// A number without its sign, which is a bit: one operation where std's `abs` is five (two tests, two masks and a choice).
fn size(v: f32) -> f32
    requires { T (not (is_nan v)) }
    ensures { result ≡ magnitude v }
{
    f32::from_bits(f32::to_bits(v) % 2147483648)
}

// `place` of a number. Only the first and the last tap's may lie outside the window, which spares the others the test.
fn near<const END: bool>(v: f32) -> f32
    requires { T (not (is_nan v)) × ((END ≡ false) → T (lt (magnitude v) f16)) }
    ensures { result ≡ place_of v }
{
    let u = size(v);
    if !END || u < 16.0 { u * 512.0 } else { 8193.0 }
}

// The weight by the table of a tap in the window; of one outside it, that by the last entry.
fn weight_of<const END: bool>(table: &[f32; 8194], i: u32, g: f32) -> f32
    requires { (END ≡ false) → i ≤ 8192 }
    ensures { result ≡ weight_at table.now (min i 8192) g }
{
    let entry = if END { i.min(8192) } else { i };
    TapPlace { entry, part: g }.weight(table)
}

impl Places {
    pub fn new() -> Places
        ensures { (result.entries ≡ replicate 320 0) × (result.parts ≡ replicate 320 f0) }
    {
        Places {
            entries: [0; 320],
            parts: [0.0; 320],
        }
    }

    // Stores the entries at or before four places, and the parts of the way to the next ones, as those of tap k. All are worked
    // out before one is stored. A place is small, so that its entry is an i32, too, which the machine makes of a float in one
    // operation.
    fn put(&mut self, y: Four, k: usize)
        requires { (k < 80) × Few y }
        ensures { (self.new.entries ≡ set (set (set (set self.old.entries (4 * k) (to_unsigned 64 y.x0)) (4 * k + 1) (to_unsigned 64 y.x1)) (4 * k + 2) (to_unsigned 64 y.x2)) (4 * k + 3) (to_unsigned 64 y.x3)) × (self.new.parts ≡ set (set (set (set self.old.parts (4 * k) (y.x0 ⊖ single (to_unsigned 64 y.x0))) (4 * k + 1) (y.x1 ⊖ single (to_unsigned 64 y.x1))) (4 * k + 2) (y.x2 ⊖ single (to_unsigned 64 y.x2))) (4 * k + 3) (y.x3 ⊖ single (to_unsigned 64 y.x3))) }
    {
        let w0 = whole(y.x0);
        let w1 = whole(y.x1);
        let w2 = whole(y.x2);
        let w3 = whole(y.x3);
        let i0 = (w0 as i32) as u32;
        let i1 = (w1 as i32) as u32;
        let i2 = (w2 as i32) as u32;
        let i3 = (w3 as i32) as u32;
        let m = 4 * k;
        self.entries[m] = i0;
        self.entries[m + 1] = i1;
        self.entries[m + 2] = i2;
        self.entries[m + 3] = i3;
        self.parts[m] = y.x0 - w0;
        self.parts[m + 1] = y.x1 - w1;
        self.parts[m + 2] = y.x2 - w2;
        self.parts[m + 3] = y.x3 - w3;
    }

    // The places of tap k of all four, d before them. What is asked of span and f is handed on by three functions: a struct of the two with
    // both facts would be made once, in the caller, by the same two proofs, and what is said of the lists, which change, could not be in it.
    fn put_tap<const END: bool>(&mut self, span: SincSpan, f: Four, d: f32, k: usize)
        requires { Inside span × Parts f × (k < 2 * span.half) × ((END ≡ false) → (0 < k) × (k + 1 < 2 * span.half)) × (d ≡ single span.half ⊖ f1 ⊖ single k) × Rows span f self.old.entries self.old.parts k }
        ensures { Rows span f self.new.entries self.new.parts (k + 1) }
    {
        let y = Four {
            x0: near::<END>((f.x0 + d) * span.fc),
            x1: near::<END>((f.x1 + d) * span.fc),
            x2: near::<END>((f.x2 + d) * span.fc),
            x3: near::<END>((f.x3 + d) * span.fc),
        };
        self.put(y, k);
    }

    // The places of all taps. The distance is counted down in a float, so that it needs no conversion. The loop reads and writes no list
    // itself: k is the tap's number, which `put_tap` is handed, so that an iterator would be one over the same numbers.
    fn put_all(&mut self, span: SincSpan, f: Four)
        requires { Inside span × Parts f }
        ensures { Rows span f self.new.entries self.new.parts (2 * span.half) }
    {
        let last = 2 * (span.half as usize) - 1;
        let top = (span.half as f32) - 1.0;
        self.put_tap::<true>(span, f, top, 0);
        let mut d = top - 1.0;
        for k in 1..last {
            self.put_tap::<false>(span, f, d, k);
            d = d - 1.0;
        }
        self.put_tap::<true>(span, f, d, last);
    }

    // The same, unless they are there already: those of other frames that lie as far behind theirs.
    pub fn put_unless(&mut self, placed: bool, span: SincSpan, f: Four)
        requires { Inside span × Parts f × ((placed ≡ true) → Rows span f self.old.entries self.old.parts (2 * span.half)) }
        ensures { Rows span f self.new.entries self.new.parts (2 * span.half) }
    {
        if !placed {
            self.put_all(span, f);
        }
    }

    // Tap k of all four.
    pub fn tap<const END: bool>(&self, table: &[f32; 8194], k: usize) -> Tap
        requires { (k < 80) × ((END ≡ false) → Low self.now.entries k) }
        ensures { TapOf table.now self.now.entries self.now.parts k result }
    {
        let m = 4 * k;
        let i0 = self.entries[m];
        let i1 = self.entries[m + 1];
        let i2 = self.entries[m + 2];
        let i3 = self.entries[m + 3];
        Tap {
            w: Four {
                x0: weight_of::<END>(table, i0, self.parts[m]),
                x1: weight_of::<END>(table, i1, self.parts[m + 1]),
                x2: weight_of::<END>(table, i2, self.parts[m + 2]),
                x3: weight_of::<END>(table, i3, self.parts[m + 3]),
            },
            in0: !END || i0 <= 8192,
            in1: !END || i1 <= 8192,
            in2: !END || i2 <= 8192,
            in3: !END || i3 <= 8192,
        }
    }
}
