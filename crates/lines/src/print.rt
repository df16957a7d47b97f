// Numbers as text, written into a text that the caller lends. Each writer answers the place after what it wrote; where there
// is not room for all of it, it writes nothing and answers the place that it was given.
ghost use Rattle.std.specs.Prelude.{◌≡◌, ◌+◌, ◌≤◌, ◌<◌, length, ◌∷◌};
ghost use Rattle.std.proofs.lemmas.List.Edits.{sets};
ghost use Rattle.lines.specs.Print.{glyph_of, last_digits, places_in, digits_of, signed_digits, put};

fn glyph(d: u64) -> u8
    requires { d < 16 }
    ensures { result ≡ glyph_of d }
{
    if d < 10 {
        return 48 + d as u8;
    }
    55 + d as u8
}

// How many decimal digits `n` takes.
fn places(n: u64) -> usize
    ensures { (result ≡ places_in 19 n) × (result ≤ 20) }
{
    let mut rest = n;
    for k in 1..20 {
        if rest < 10 {
            return k;
        }
        rest /= 10;
    }
    20
}

// The last `k` digits of `n`, from the last to the first.
fn fill(out: &mut [u8], at: usize, n: u64, base: u64, k: usize)
    requires { (0 < base) × (base ≤ 16) × (at + k ≤ length out.old) }
    ensures { out.new ≡ sets out.old at (last_digits base k n) }
{
    let mut rest = n;
    for i in (0..k).rev() {
        out[at + i] = glyph(rest % base);
        rest /= base;
    }
}

fn put_digits(out: &mut [u8], at: usize, n: u64, base: u64, k: usize) -> usize
    requires { (0 < base) × (base ≤ 16) }
    ensures { record { at = result; text = out.new } ≡ put out.old at (last_digits base k n) }
{
    if out.len() < at || out.len() - at < k {
        return at;
    }
    fill(out, at, n, base, k);
    at + k
}

// The decimal digits of `n`.
pub fn put_number(out: &mut [u8], at: usize, n: u64) -> usize
    ensures { record { at = result; text = out.new } ≡ put out.old at (digits_of n) }
{
    put_digits(out, at, n, 10, places(n))
}

// Eight hexadecimal digits in capitals.
pub fn put_hex(out: &mut [u8], at: usize, w: u32) -> usize
    ensures { record { at = result; text = out.new } ≡ put out.old at (last_digits 16 8 w) }
{
    put_digits(out, at, w as u64, 16, 8)
}

// `-` and the decimal digits of `n`.
fn put_below(out: &mut [u8], at: usize, n: u64) -> usize
    ensures { record { at = result; text = out.new } ≡ put out.old at (45 ∷ digits_of n) }
{
    let k = places(n);
    if out.len() < at || out.len() - at < k + 1 {
        return at;
    }
    out[at] = b'-';
    fill(out, at + 1, n, 10, k);
    at + 1 + k
}

// The decimal digits of `n` with its sign.
pub fn put_signed(out: &mut [u8], at: usize, n: i32) -> usize
    ensures { record { at = result; text = out.new } ≡ put out.old at (signed_digits n) }
{
    let size = n.unsigned_abs() as u64;
    if n < 0 {
        return put_below(out, at, size);
    }
    put_number(out, at, size)
}
