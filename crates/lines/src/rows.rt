// The fields of the block lister's lines that give words of a region, a row for each (specs/Rows): what it is read as, and which words
// it gives.
ghost use Rattle.std.specs.Prelude.{◌≡◌, ◌+◌, ◌≤◌, ◌<◌, length, set, Option, Bool};
ghost use Rattle.lines.specs.Fields.{field_at};
ghost use Rattle.lines.specs.Rows.{form_value, form_fits, form_word, is_tied, row_fits, fields_fit, line_fits, flagged, put_row, put_fields, rows_of, part_words};

use super::desk::maybe;
use super::field::{capital_single, field, has_fields, hex, is_none, signed, word, word_of};
use exact::order::bits_f32;
use program::region::{SILENCE, float_of};

// How a field is read: a number of at most so much, a single, a number with its sign, a sample's number or `-`.
#[derive(Clone, Copy)]
pub enum Form {
    Number(u32),
    Single,
    Signed,
    Sample,
}

// The field is `-` where the field `lead` is, if it has one. The word `flag` says whether it is there, the word `word` holds it.
#[derive(Clone, Copy)]
pub struct Row {
    pub form: Form,
    pub lead: Option<usize>,
    pub flag: Option<usize>,
    pub word: usize,
}

macro_rules! rows {
    ($($form:expr, $lead:expr, $flag:expr, $word:expr;)*) => {
        [$(Row { form: $form, lead: $lead, flag: $flag, word: $word }),*]
    };
}

// The fields of an R line.
const REGION: [Row; 47] = rows! {
    Form::Sample, None, None, 0;
    Form::Number(255), None, None, 1;
    Form::Number(255), None, None, 2;
    Form::Number(255), None, None, 3;
    Form::Number(255), None, None, 4;
    Form::Number(255), None, None, 5;
    Form::Single, None, None, 39;
    Form::Single, None, None, 40;
    Form::Signed, None, None, 6;
    Form::Number(u32::MAX), None, None, 7;
    Form::Number(u32::MAX), Some(11), Some(8), 9;
    Form::Number(3), None, None, 10;
    Form::Number(3), None, None, 11;
    Form::Number(u32::MAX), Some(14), Some(12), 13;
    Form::Number(u32::MAX), Some(14), None, 14;
    Form::Single, None, None, 52;
    Form::Single, None, None, 53;
    Form::Single, None, None, 54;
    Form::Single, None, None, 55;
    Form::Single, None, None, 56;
    Form::Single, None, None, 43;
    Form::Single, None, None, 44;
    Form::Single, None, None, 45;
    Form::Single, None, None, 46;
    Form::Single, None, None, 50;
    Form::Single, None, None, 47;
    Form::Single, None, None, 51;
    Form::Number(u32::MAX), Some(28), Some(15), 16;
    Form::Number(u32::MAX), Some(28), None, 17;
    Form::Single, Some(30), Some(30), 31;
    Form::Single, Some(30), None, 32;
    Form::Signed, None, None, 18;
    Form::Signed, Some(33), Some(19), 20;
    Form::Number(2), None, None, 21;
    Form::Single, None, None, 48;
    Form::Number(4), None, None, 22;
    Form::Single, None, None, 57;
    Form::Single, None, None, 49;
    Form::Number(u32::MAX), Some(39), Some(23), 24;
    Form::Number(u32::MAX), Some(40), Some(25), 26;
    Form::Single, None, None, 41;
    Form::Single, None, None, 42;
    Form::Single, Some(43), Some(33), 34;
    Form::Single, Some(43), None, 35;
    Form::Single, Some(43), None, 36;
    Form::Single, Some(43), None, 37;
    Form::Number(1), Some(43), None, 38;
};

// The fields of an F line, at the seven words of a filter.
const FILTER: [Row; 7] = rows! {
    Form::Number(12), None, None, 0;
    Form::Single, None, None, 2;
    Form::Single, None, None, 3;
    Form::Single, None, None, 4;
    Form::Number(255), None, None, 1;
    Form::Single, None, None, 5;
    Form::Single, None, None, 6;
};

// The fields of a Q line, at the six words of a band.
const BAND: [Row; 6] = rows! {
    Form::Number(2), None, None, 0;
    Form::Single, None, None, 1;
    Form::Single, None, None, 2;
    Form::Single, None, None, 3;
    Form::Single, None, None, 4;
    Form::Single, None, None, 5;
};

// What R, F and Q lines give the words of.
#[derive(Clone, Copy)]
pub enum Part {
    Region,
    Filter,
    Band,
}

#[tactic(auto, unfolding(crate::specs::Rows::rows_of))]
fn rows_of(part: Part) -> &'static [Row]
    ensures rows { result.now ≡ rows_of part }
    ensures few { length result.now < 100 }
{
    match part {
        Part::Region => &REGION,
        Part::Filter => &FILTER,
        Part::Band => &BAND,
    }
}

// ---- reading

// The word that a field gives, where it can be read.
fn form_value(f: &[u8], form: Form) -> Option<u32>
    ensures { result ≡ form_value form f.now }
{
    match form {
        Form::Number(max) => word(f, max),
        Form::Single => capital_single(f).map(bits_f32),
        Form::Signed => signed(f).map(word_of),
        Form::Sample => maybe(f).map(|n| n.unwrap_or(SILENCE)),
    }
}

#[tactic(auto, using(crate::proofs::Tables::fits))]
fn form_fits(f: &[u8], form: Form) -> bool
    ensures { result ≡ form_fits form f.now }
{
    form_value(f, form).is_some()
}

// Whether the field that decides over this one is `-`.
fn is_tied(line: &[u8], lead: Option<usize>) -> bool
    ensures { result ≡ is_tied line.now lead }
{
    match lead {
        None => false,
        Some(k) => is_none(field(line, k)),
    }
}

#[tactic(auto, unfolding(crate::specs::Rows::row_fits))]
fn row_fits(line: &[u8], f: &[u8], r: Row) -> bool
    ensures { result ≡ row_fits line.now r f.now }
{
    if is_tied(line, r.lead) {
        return is_none(f);
    }
    form_fits(f, r.form)
}

// Whether the fields fit their rows.
fn fields_fit(line: &[u8], rows: &[Row]) -> bool
    ensures { result ≡ fields_fit line.now 1 rows.now }
{
    for (i, r) in rows.iter().enumerate() {
        if !row_fits(line, field(line, i + 1), *r) {
            return false;
        }
    }
    true
}

// Whether the line has the fields of the part and no other.
#[tactic(auto, unfolding(crate::specs::Rows::line_fits))]
pub(crate) fn gives(line: &[u8], part: Part) -> bool
    ensures { result ≡ line_fits line.now (rows_of part) }
{
    let rows = rows_of(part);
    has_fields(line, rows.len() + 1) && fields_fit(line, rows)
}

// ---- the words of a region

// The same for any field: a single's word is that of its digits, whether they are eight capitals or not.
#[tactic(auto, using(crate::proofs::Tables::value))]
fn form_word(f: &[u8], form: Form) -> u32
    ensures { result ≡ form_word form f.now }
{
    match form {
        Form::Single => bits_f32(float_of(hex(f).unwrap_or(0))),
        _ => form_value(f, form).unwrap_or(0),
    }
}

// Writes where there is such a place.
pub fn store<T: Copy>(w: &mut [T], at: usize, v: T)
    ensures { w.new ≡ set w.old at v }
{
    if at < w.len() {
        w[at] = v;
    }
}

// Whether the field is there, where a word says so.
fn put_flag(f: &[u8], flag: Option<usize>, w: &mut [u32])
    ensures { w.new ≡ flagged flag f.now w.old }
{
    if let Some(at) = flag {
        store(w, at, !is_none(f) as u32);
    }
}

#[tactic(auto, unfolding(crate::specs::Rows::put_row))]
fn put_row(f: &[u8], r: Row, w: &mut [u32])
    ensures { w.new ≡ put_row r f.now w.old }
{
    put_flag(f, r.flag, w);
    store(w, r.word, form_word(f, r.form));
}

fn put_fields(line: &[u8], rows: &[Row], w: &mut [u32])
    ensures { w.new ≡ put_fields line.now 1 rows.now w.old }
{
    for (i, r) in rows.iter().enumerate() {
        put_row(field(line, i + 1), *r, w);
    }
}

// The words that the line gives of the part.
pub fn put_part(line: &[u8], part: Part, w: &mut [u32])
    ensures { w.new ≡ part_words part line.now w.old }
{
    put_fields(line, rows_of(part), w);
}
