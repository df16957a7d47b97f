// The lines of the block lister. `rows` says what the fields of R, F and Q mean.
ghost use Rattle.std.specs.Prelude.{◌≡◌, Option, ok_or};
ghost use Rattle.lines.specs.Block.{content_of, input_of, entry_line, sample_at, sample_line, part_line, point_line, voice_line, set_at, input_line, play_line, block_line};

use super::desk::{PlayLine, voice_at};
use super::field::{byte, capital_single, field, has_fields, is_none, number, word};
use super::rows::{Part, gives};

// What a sample's frames are: zeros, the noise of the line's seed, or ones.
#[derive(Clone, Copy)]
pub enum Content {
    Zeros,
    Noise,
    Ones,
}

// Rate, 1 or 2 channels, frames of each, what they are, and the noise's seed.
#[derive(Clone, Copy)]
pub struct SampleLine {
    pub rate: f32,
    pub channels: u32,
    pub frames: u32,
    pub content: Content,
    pub seed: u64,
}

// The inputs of a block, in the order of their numbers.
#[derive(Clone, Copy)]
pub enum Input {
    Freq,
    Gate,
    Vel,
    Amp,
    Seed,
    Bend,
    Quality,
}

// From which frame an input has which value.
#[derive(Clone, Copy)]
pub struct Set {
    pub frame: u32,
    pub value: f32,
}

// W, S, one of R, F and Q, C, V, I (which sets an input, or disconnects it), B, A, Z and D. What V and B hold differs from the desk
// lister's, so that the two share no type but `PlayLine`.
#[derive(Clone, Copy)]
pub enum Line {
    Entry { index: u32, value: f32 },
    Sample(SampleLine),
    Part(Part),
    Point { velocity: u8, gain: f32 },
    Voice { rate: f32 },
    Input { input: Input, set: Option<Set> },
    Block(PlayLine),
    Ask(u64),
    Reset(u64),
    Close(u64),
}

impl TryFrom<u64> for Content {
    type Error = ();

    ghost try_from_gives = { λ n r. r ≡ ok_or (content_of n) tt };

    fn try_from(n: u64) -> Result<Content, ()> {
        match n {
            0 => Ok(Content::Zeros),
            1 => Ok(Content::Noise),
            2 => Ok(Content::Ones),
            _ => Err(()),
        }
    }
}

impl TryFrom<u64> for Input {
    type Error = ();

    ghost try_from_gives = { λ n r. r ≡ ok_or (input_of n) tt };

    fn try_from(n: u64) -> Result<Input, ()> {
        match n {
            0 => Ok(Input::Freq),
            1 => Ok(Input::Gate),
            2 => Ok(Input::Vel),
            3 => Ok(Input::Amp),
            4 => Ok(Input::Seed),
            5 => Ok(Input::Bend),
            6 => Ok(Input::Quality),
            _ => Err(()),
        }
    }
}

// W,index,value.
#[tactic(auto, unfolding(crate::specs::Block::entry_line))]
fn entry_line(line: &[u8]) -> Option<Line>
    ensures { result ≡ entry_line line.now }
{
    if !has_fields(line, 3) {
        return None;
    }
    let index = word(field(line, 1), 8193)?;
    let value = capital_single(field(line, 2))?;
    Some(Line::Entry { index, value })
}

#[tactic(auto, unfolding(crate::specs::Block::sample_at))]
fn sample_at(line: &[u8]) -> Option<SampleLine>
    ensures { result ≡ sample_at line.now }
{
    let rate = capital_single(field(line, 1))?;
    let channels = word(field(line, 2), 2)?;
    let frames = word(field(line, 3), u32::MAX)?;
    let content = Content::try_from(number(field(line, 4), 2)?).ok()?;
    let seed = number(field(line, 5), u64::MAX)?;
    if channels == 0 {
        return None;
    }
    Some(SampleLine {
        rate,
        channels,
        frames,
        content,
        seed,
    })
}

// S,rate,channels,frames,kind,seed.
#[tactic(auto, unfolding(crate::specs::Block::sample_line))]
fn sample_line(line: &[u8]) -> Option<Line>
    ensures { result ≡ sample_line line.now }
{
    if !has_fields(line, 6) {
        return None;
    }
    sample_at(line).map(Line::Sample)
}

// R, F or Q.
#[tactic(auto, unfolding(crate::specs::Block::part_line))]
fn part_line(line: &[u8], part: Part) -> Option<Line>
    ensures { result ≡ part_line part line.now }
{
    gives(line, part).then_some(Line::Part(part))
}

// C,velocity,gain.
#[tactic(auto, unfolding(crate::specs::Block::point_line))]
fn point_line(line: &[u8]) -> Option<Line>
    ensures { result ≡ point_line line.now }
{
    if !has_fields(line, 3) {
        return None;
    }
    let velocity = byte(field(line, 1), 255)?;
    let gain = capital_single(field(line, 2))?;
    Some(Line::Point { velocity, gain })
}

// V,rate.
#[tactic(auto, unfolding(crate::specs::Block::voice_line))]
fn voice_line(line: &[u8]) -> Option<Line>
    ensures { result ≡ voice_line line.now }
{
    if !has_fields(line, 2) {
        return None;
    }
    capital_single(field(line, 1)).map(|rate| Line::Voice { rate })
}

// A frame and a value, or `-` for both.
#[tactic(auto, unfolding(crate::specs::Block::set_at))]
fn set_at(frame: &[u8], value: &[u8]) -> Option<Option<Set>>
    ensures { result ≡ set_at frame.now value.now }
{
    if is_none(frame) {
        return is_none(value).then_some(None);
    }
    let frame = word(frame, 127)?;
    let value = capital_single(value)?;
    Some(Some(Set { frame, value }))
}

// I,input,frame,value.
#[tactic(auto, unfolding(crate::specs::Block::input_line))]
fn input_line(line: &[u8]) -> Option<Line>
    ensures { result ≡ input_line line.now }
{
    if !has_fields(line, 4) {
        return None;
    }
    let input = Input::try_from(number(field(line, 1), 6)?).ok()?;
    let set = set_at(field(line, 2), field(line, 3))?;
    Some(Line::Input { input, set })
}

// B,voice,offset,frames.
#[tactic(auto, unfolding(crate::specs::Block::play_line))]
fn play_line(line: &[u8]) -> Option<Line>
    ensures { result ≡ play_line line.now }
{
    if !has_fields(line, 4) {
        return None;
    }
    let voice = number(field(line, 1), u64::MAX)?;
    let offset = number(field(line, 2), u64::MAX)?;
    let frames = word(field(line, 3), u32::MAX)?;
    Some(Line::Block(PlayLine {
        voice,
        offset,
        frames,
    }))
}

// What a line means; none of any that cannot be read. Of R, F and Q it says that they can be read: `put_part` gives their words.
#[tactic(auto, unfolding(crate::specs::Block::block_line, crate::specs::Fields::is_byte))]
pub fn read_block_line(line: &[u8]) -> Option<Line>
    ensures { result ≡ block_line line.now }
{
    match field(line, 0) {
        b"V" => voice_line(line),
        b"I" => input_line(line),
        b"B" => play_line(line),
        b"A" => voice_at(line).map(Line::Ask),
        b"Z" => voice_at(line).map(Line::Reset),
        b"D" => voice_at(line).map(Line::Close),
        b"W" => entry_line(line),
        b"S" => sample_line(line),
        b"R" => part_line(line, Part::Region),
        b"C" => point_line(line),
        b"F" => part_line(line, Part::Filter),
        b"Q" => part_line(line, Part::Band),
        _ => None,
    }
}
