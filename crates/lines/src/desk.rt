// 01's lines of the desk lister. `field` says what each field means.
ghost use Rattle.std.specs.Prelude.{◌≡◌, Option};
ghost use Rattle.lines.specs.Desk.{or_none, maybe, off_by, sample_line, window_at, region_at, region_line, voice_line, block_at, block_line, voice_at, desk_line};
ghost use Rattle.lines.specs.Desk as specs;

use super::field::{byte, field, has_fields, is_none, number, signed, single, six_digits, word};
use program::region::{Seq, Window};

// A region as the desk lister gives it: no sample is silence. The modes stay numbers, counted from 0 as the enums are declared, since
// they are the region's words too (docs/PROGRAM.md): a type between them would only be made and unmade.
#[derive(Clone, Copy)]
pub struct RegionLine {
    pub sample: Option<u32>,
    pub window: Window,
    pub loop_mode: u8,
    pub trigger: u8,
    pub group: i32,
    pub off_by: Option<i32>,
    pub note_polyphony: Option<u32>,
    pub polyphony: Option<u32>,
    pub seq: Option<Seq>,
}

// The block that a B line asks for.
#[derive(Clone, Copy)]
pub struct PlayLine {
    pub voice: u64,
    pub offset: u64,
    pub frames: u32,
}

// The same with the inputs, which are as they are throughout.
#[derive(Clone, Copy)]
pub struct BlockLine {
    pub play: PlayLine,
    pub gate: bool,
    pub freq: f32,
    pub vel: f32,
}

// The lines S, R, V, B, Z and D.
#[derive(Clone, Copy)]
pub enum DeskLine {
    Sample { rate: u32, frames: u32 },
    Region(RegionLine),
    Voice { rate: u32 },
    Block(BlockLine),
    Reset(u64),
    Close(u64),
}

// What is read of a field, which may be `-` for none.
fn or_none<T: Drop>(f: &[u8], read: Option<T>) -> Option<Option<T>>
    ensures { result ≡ or_none f.now read }
{
    if is_none(f) {
        return Some(None);
    }
    Some(Some(read?))
}

// A number or `-`.
pub(crate) fn maybe(f: &[u8]) -> Option<Option<u32>>
    ensures { result ≡ maybe f.now }
{
    or_none(f, word(f, u32::MAX))
}

fn off_by(f: &[u8]) -> Option<Option<i32>>
    ensures { result ≡ off_by f.now }
{
    or_none(f, signed(f))
}

// Two numbers, or `-` in both fields.
#[tactic(auto, unfolding(crate::specs::Desk::seq))]
fn seq(f: &[u8], g: &[u8]) -> Option<Option<Seq>>
    ensures { result ≡ specs.seq f.now g.now }
{
    if is_none(f) {
        return is_none(g).then_some(None);
    }
    let length = word(f, u32::MAX)?;
    let position = word(g, u32::MAX)?;
    Some(Some(Seq { length, position }))
}

// S,rate,frames: 1 to 8,000 frames.
#[tactic(auto, unfolding(crate::specs::Desk::sample_line))]
fn sample_line(line: &[u8]) -> Option<DeskLine>
    ensures { result ≡ sample_line line.now }
{
    if !has_fields(line, 3) {
        return None;
    }
    let rate = six_digits(field(line, 1))?;
    let frames = six_digits(field(line, 2))?;
    if frames == 0 || 8000 < frames {
        return None;
    }
    Some(DeskLine::Sample { rate, frames })
}

#[tactic(auto, unfolding(crate::specs::Desk::window_at))]
fn window_at(line: &[u8]) -> Option<Window>
    ensures { result ≡ window_at line.now }
{
    let lokey = byte(field(line, 2), 255)?;
    let hikey = byte(field(line, 3), 255)?;
    let lovel = byte(field(line, 4), 255)?;
    let hivel = byte(field(line, 5), 255)?;
    Some(Window {
        lokey,
        hikey,
        lovel,
        hivel,
    })
}

#[tactic(auto, unfolding(crate::specs::Desk::region_at))]
fn region_at(line: &[u8]) -> Option<RegionLine>
    ensures { result ≡ region_at line.now }
{
    let sample = maybe(field(line, 1))?;
    let window = window_at(line)?;
    let loop_mode = byte(field(line, 6), 3)?;
    let trigger = byte(field(line, 7), 4)?;
    let group = signed(field(line, 8))?;
    let off_by = off_by(field(line, 9))?;
    let note_polyphony = maybe(field(line, 10))?;
    let polyphony = maybe(field(line, 11))?;
    let seq = seq(field(line, 12), field(line, 13))?;
    Some(RegionLine {
        sample,
        window,
        loop_mode,
        trigger,
        group,
        off_by,
        note_polyphony,
        polyphony,
        seq,
    })
}

// R,sample,lokey,hikey,lovel,hivel,loop_mode,trigger,group,off_by,note_polyphony,polyphony,seq_length,seq_position.
#[tactic(auto, unfolding(crate::specs::Desk::region_line))]
fn region_line(line: &[u8]) -> Option<DeskLine>
    ensures { result ≡ region_line line.now }
{
    if !has_fields(line, 14) {
        return None;
    }
    region_at(line).map(DeskLine::Region)
}

// V,rate.
#[tactic(auto, unfolding(crate::specs::Desk::voice_line))]
fn voice_line(line: &[u8]) -> Option<DeskLine>
    ensures { result ≡ voice_line line.now }
{
    if !has_fields(line, 2) {
        return None;
    }
    let rate = six_digits(field(line, 1))?;
    Some(DeskLine::Voice { rate })
}

#[tactic(auto, unfolding(crate::specs::Desk::block_at))]
fn block_at(line: &[u8]) -> Option<BlockLine>
    ensures { result ≡ block_at line.now }
{
    let voice = number(field(line, 1), u64::MAX)?;
    let offset = number(field(line, 2), u64::MAX)?;
    let frames = six_digits(field(line, 3))?;
    let gate = number(field(line, 4), 1)?;
    let freq = single(field(line, 5))?;
    let vel = single(field(line, 6))?;
    let play = PlayLine {
        voice,
        offset,
        frames,
    };
    Some(BlockLine {
        play,
        gate: gate == 1,
        freq,
        vel,
    })
}

// B,voice,offset,frames,gate,freq,vel.
#[tactic(auto, unfolding(crate::specs::Desk::block_line))]
fn block_line(line: &[u8]) -> Option<DeskLine>
    ensures { result ≡ block_line line.now }
{
    if !has_fields(line, 7) {
        return None;
    }
    block_at(line).map(DeskLine::Block)
}

// The voice that Z,voice or D,voice names.
#[tactic(auto, unfolding(crate::specs::Desk::voice_at))]
pub(crate) fn voice_at(line: &[u8]) -> Option<u64>
    ensures { result ≡ voice_at line.now }
{
    if !has_fields(line, 2) {
        return None;
    }
    number(field(line, 1), u64::MAX)
}

// What a line means; none of any that cannot be read.
#[tactic(auto, unfolding(crate::specs::Desk::desk_line, crate::specs::Fields::is_byte))]
pub fn read_desk(line: &[u8]) -> Option<DeskLine>
    ensures { result ≡ desk_line line.now }
{
    match field(line, 0) {
        b"S" => sample_line(line),
        b"R" => region_line(line),
        b"V" => voice_line(line),
        b"B" => block_line(line),
        b"Z" => voice_at(line).map(DeskLine::Reset),
        b"D" => voice_at(line).map(DeskLine::Close),
        _ => None,
    }
}
