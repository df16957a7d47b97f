// The fields of a line, and the readers of each kind of field.
ghost use Rattle.std.specs.Prelude.{◌≡◌, ◌≤◌, ◌<◌, length, IfSome};
ghost use Rattle.lines.specs.Fields.{field_at, has_fields, numeral, number, is_byte, is_none, six_digits, signed, hex, single, no_small, capital_single};
ghost use Rattle.lines.specs.Fields as specs;

use program::region::float_of;

// Field `k`, counted from 0; an empty one where there are fewer. It is looked for from the line's start each time. Fields found once
// and handed on would be filled by a loop of their own, and each of the 26 readers, which say by `field_at` of the line what they
// read, would ask that the fields that it is handed are this line's.
pub fn field(line: &[u8], k: usize) -> &[u8]
    ensures { result.now ≡ field_at line.now k }
{
    line.split(|c| *c == b',').nth(k).unwrap_or(&[])
}

// Whether the line has `n` fields.
pub fn has_fields(line: &[u8], n: usize) -> bool
    ensures { result ≡ has_fields n line.now }
{
    line.split(|c| *c == b',').count() == n
}

// The number that the digits of a base mean, where it is at most `max`.
fn numeral(f: &[u8], base: u32, max: u64) -> Option<u64>
    requires { (2 ≤ base) × (base ≤ 16) }
    ensures value { result ≡ numeral base max f.now }
    ensures bound { IfSome result (λ n. n ≤ max) }
{
    if f.is_empty() {
        return None;
    }
    let mut n: u64 = 0;
    for c in f {
        let d = char::from(*c).to_digit(base)?;
        n = n.checked_mul(base as u64)?.checked_add(d as u64)?;
        if max < n {
            return None;
        }
    }
    Some(n)
}

// Whether a field is the one byte `b`.
#[tactic(auto, unfolding(crate::specs::Fields::is_byte))]
pub fn is_byte(f: &[u8], b: u8) -> bool
    ensures { result ≡ is_byte b f.now }
{
    f.len() == 1 && f[0] == b
}

// Whether a field is `-`, which stands for none.
pub fn is_none(f: &[u8]) -> bool
    ensures { result ≡ is_none f.now }
{
    is_byte(f, b'-')
}

// A whole number of at most `max`.
pub fn number(f: &[u8], max: u64) -> Option<u64>
    ensures value { result ≡ number max f.now }
    ensures bound { IfSome result (λ n. n ≤ max) }
{
    numeral(f, 10, max)
}

// The same as a word.
pub fn word(f: &[u8], max: u32) -> Option<u32>
    ensures { result ≡ number max f.now }
{
    let n = number(f, max as u64)?;
    Some(n as u32)
}

// The same as a byte. One function of both types would ask of them what `TryFrom<u64>` gives, where a cast says it.
pub fn byte(f: &[u8], max: u8) -> Option<u8>
    ensures { result ≡ number max f.now }
{
    let n = number(f, max as u64)?;
    Some(n as u8)
}

// A number of at most six digits.
#[tactic(auto, unfolding(crate::specs::Fields::six_digits))]
pub fn six_digits(f: &[u8]) -> Option<u32>
    ensures { result ≡ six_digits f.now }
{
    if 6 < f.len() {
        return None;
    }
    let n = number(f, 999999)?;
    Some(n as u32)
}

// A whole number of 32 bits with its sign.
#[tactic(auto, unfolding(crate::specs::Fields::signed, crate::specs::Fields::is_minus))]
pub fn signed(f: &[u8]) -> Option<i32>
    ensures { result ≡ signed f.now }
{
    if let [b'-', digits @ ..] = f {
        let n = number(digits, 0x8000_0000)?;
        return Some(-(n as i64) as i32);
    }
    let n = number(f, 0x7fff_ffff)?;
    Some(n as i32)
}

// A word in hexadecimal digits.
pub(crate) fn hex(f: &[u8]) -> Option<u32>
    ensures { result ≡ hex f.now }
{
    let n = numeral(f, 16, 0xffff_ffff)?;
    Some(n as u32)
}

// Eight hexadecimal digits, the bits of a single.
#[tactic(auto, unfolding(crate::specs::Fields::single))]
pub fn single(f: &[u8]) -> Option<f32>
    ensures { result ≡ single f.now }
{
    if f.len() != 8 {
        return None;
    }
    hex(f).map(float_of)
}

fn no_small(f: &[u8]) -> bool
    ensures { result ≡ no_small f.now }
{
    f.iter().all(|c| *c < 97)
}

// The same in capitals.
#[tactic(auto, unfolding(crate::specs::Fields::capital_single))]
pub fn capital_single(f: &[u8]) -> Option<f32>
    ensures { result ≡ capital_single f.now }
{
    if !no_small(f) {
        return None;
    }
    single(f)
}

// The word of a signed number, in two's complement.
#[tactic(auto, unfolding(crate::specs::Fields::word_of))]
pub fn word_of(n: i32) -> u32
    ensures { result ≡ specs.word_of n }
{
    n.cast_unsigned()
}
