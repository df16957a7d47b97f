// Reaches every cause of 01's refusals 5 to 9 by the public calls, and beside each the neighbour that is taken: what each call answers, and
// whether those that are turned back leave session, voice and both outputs as they were, bit for bit.
#![tactic(auto)]

ghost use Rattle.std.specs.Prelude.{◌<◌, ◌≤◌, ◌^◌};

use block::BlockTime;
use block::inputs::Inputs;
use cases::calls::{asking, closing, making, playing, resetting};
use cases::lend::{
    Lent, ONE_SAMPLE, PCM, RegionWords, TABLE, lent_with, program, put, regions, silent_region,
};
use cases::places::{CHANNELS, FILTERS, FRAMES, HIKEY};
use cases::same::SameBits;
use cases::state::{
    RATE, crowded, first_of, fresh, good, made, played, set_stages, with_all, with_record,
    with_records,
};
use events::Both;
use player::{Fade, LoopRt, Player};
use program::bind::BoundProgram;
use session::{Session, fresh_session};
use std::io;

// The last id, offset and serial that are taken, and the first that are not.
const LAST: u64 = 0x8000_0000_0000_0000;

const PAST: u64 = LAST + 1;

// ---- the calls on a state

// A block of 4 frames that goes on where the good state's blocks end.
const USUAL: BlockTime = BlockTime {
    frames: 4,
    offset: 8,
};

// With this program lent.
fn outcome(rt: &impl Print, text: &str, b: &Both, t: BlockTime, lent: Lent<'_>) -> io::Result<()> {
    let block = playing::<129, 129>(b, t, Inputs::default(), lent);
    let asked = asking(b, lent);
    let reset = resetting(b);
    let close = closing(b);
    let left = block.left.max(reset.left).max(close.left);
    println!(rt;
        "{text}: block {}, asked {asked}, reset {}, close {}{left}",
        block.number, reset.number, close.number
    )
}

// At this time, with the usual program lent.
fn timed(rt: &impl Print, text: &str, b: &Both, t: BlockTime) -> io::Result<()> {
    let words = regions();
    outcome(rt, text, b, t, lent_with(words.as_flattened()))
}

fn case(rt: &impl Print, text: &str, b: &Both) -> io::Result<()> {
    timed(rt, text, b, USUAL)
}

// The good state, changed so.
fn changed<F: FnOnce(&mut Both)>(rt: &impl Print, text: &str, change: F) -> io::Result<()>
    requires { F.IsAlwaysCallable change }
{
    let mut b = good();
    change(&mut b);
    case(rt, text, &b)
}

// The state of the first of n voices, changed so.
fn first<F: FnOnce(&mut Both)>(rt: &impl Print, text: &str, n: u32, change: F) -> io::Result<()>
    requires { F.IsAlwaysCallable change }
{
    let mut b = first_of(n);
    change(&mut b);
    case(rt, text, &b)
}

// The good state with player k changed so.
fn player<F: FnOnce(&mut Player)>(
    rt: &impl Print,
    text: &str,
    k: usize,
    change: F,
) -> io::Result<()>
    requires { F.IsAlwaysCallable change }
{
    let mut b = good();
    if let Some(p) = b.voice.players.players.get_mut(k) {
        change(p);
    }
    case(rt, text, &b)
}

// ---- 5, 6 and 9: making

fn make(rt: &impl Print, text: &str, s: &Session, rate: f32) -> io::Result<()> {
    let made = making(s, rate, program());
    println!(rt; "{text}: make {}{}", made.number, made.left)
}

fn rates(rt: &impl Print) -> io::Result<()> {
    let s = fresh_session();
    make(rt, "5 rate 8,000", &s, 8000.0)?;
    make(rt, "5 rate 7,999.9995", &s, 7999.9995)?;
    make(rt, "5 rate 192,000", &s, 192000.0)?;
    make(rt, "5 rate 192,000.02", &s, 192000.02)?;
    make(rt, "5 rate not a number", &s, f32::NAN)
}

fn makes(rt: &impl Print) -> io::Result<()> {
    make(rt, "6 live voices 15", &made(15), RATE)?;
    make(rt, "6 live voices 16", &made(16), RATE)?;
    let mut s = fresh_session();
    s.voices.next_voice = LAST;
    make(rt, "9 next id 2^63", &s, RATE)?;
    s.voices.next_voice = PAST;
    make(rt, "9 next id 2^63 + 1", &s, RATE)
}

// ---- 7 and 9: a block

fn frame_cases(rt: &impl Print) -> io::Result<()> {
    let cases = [
        ("7 frames 0", 0),
        ("7 frames 1", 1),
        ("7 frames 128", 128),
        ("7 frames 129", 129),
    ];
    for (text, frames) in cases {
        let t = BlockTime { frames, offset: 8 };
        timed(rt, text, &good(), t)?;
    }
    Ok(())
}

// A block of 4 frames of the good state into outputs of L and R.
fn block<const L: usize, const R: usize>(
    rt: &impl Print,
    text: &str,
    inputs: Inputs<'_>,
) -> io::Result<()>
    requires { L < 2 ^ 61 × R < 2 ^ 61 }
{
    let words = regions();
    let block = playing::<L, R>(&good(), USUAL, inputs, lent_with(words.as_flattened()));
    println!(rt; "{text}: block {}{}", block.number, block.left)
}

fn output_cases(rt: &impl Print) -> io::Result<()> {
    let none = Inputs::default();
    block::<4, 4>(rt, "7 left and right 4 of 4", none)?;
    block::<3, 4>(rt, "7 left 3 of 4", none)?;
    block::<4, 3>(rt, "7 right 3 of 4", none)
}

fn input_cases(rt: &impl Print) -> io::Result<()> {
    let short: Option<&[f32]> = Some(&[0.5; 3]);
    let long: Option<&[f32]> = Some(&[0.5; 4]);
    let all = Inputs {
        freq: long,
        gate: long,
        vel: long,
        amp: long,
        seed: long,
        bend: long,
        quality: long,
    };
    let cases = [
        ("7 inputs 4 of 4", all),
        ("7 freq 3 of 4", Inputs { freq: short, ..all }),
        ("7 gate 3 of 4", Inputs { gate: short, ..all }),
        ("7 vel 3 of 4", Inputs { vel: short, ..all }),
        ("7 amp 3 of 4", Inputs { amp: short, ..all }),
        ("7 seed 3 of 4", Inputs { seed: short, ..all }),
        ("7 bend 3 of 4", Inputs { bend: short, ..all }),
        (
            "7 quality 3 of 4",
            Inputs {
                quality: short,
                ..all
            },
        ),
    ];
    for (text, inputs) in cases {
        block::<4, 4>(rt, text, inputs)?;
    }
    Ok(())
}

fn time_cases(rt: &impl Print) -> io::Result<()> {
    let cases = [
        ("9 offset 2^63", LAST, 1),
        ("9 offset 2^63 + 1", PAST, 1),
        ("9 serial 2^63", 8, LAST),
        ("9 serial 2^63 + 1", 8, PAST),
    ];
    for (text, offset, serial) in cases {
        let mut b = good();
        b.session.event_serial = serial;
        timed(rt, text, &b, BlockTime { frames: 4, offset })?;
    }
    Ok(())
}

// ---- 8: the session's voices and records

// The second of two live voices has this id.
fn second_id(rt: &impl Print, text: &str, id: u64) -> io::Result<()> {
    first(rt, text, 2, |b| b.session.voices.ids[1] = id)
}

// Of two live voices' session, a record of this voice and region.
fn record(rt: &impl Print, text: &str, voice: u64, region: u32) -> io::Result<()> {
    first(rt, text, 2, |b| {
        b.session = with_record(b.session, voice, 0, region);
    })
}

fn session_cases(rt: &impl Print) -> io::Result<()> {
    first(rt, "8 voice 1, live", 1, |b| b.voice.voice = 1)?;
    first(rt, "8 voice 2, not live", 1, |b| b.voice.voice = 2)?;
    second_id(rt, "8 live ids 1 and 2", 2)?;
    second_id(rt, "8 live ids 1 and 1", 1)?;
    record(rt, "8 record of voice 2, live", 2, 0)?;
    record(rt, "8 record of voice 3, not live", 3, 0)?;
    first(rt, "8 live voices 16", 16, |b| b.session.voices.count = 16)?;
    first(rt, "8 live voices 17", 16, |b| b.session.voices.count = 17)
}

// Sixteen voices with 32 records each.
fn records(rt: &impl Print, text: &str, count: usize) -> io::Result<()> {
    first(rt, text, 16, |b| {
        b.session = with_all(b.session);
        b.session.count = count;
        b.voice = crowded(b.voice);
    })
}

// The second voice has n records.
fn voice_records(rt: &impl Print, text: &str, n: u32) -> io::Result<()> {
    first(rt, text, 2, |b| {
        b.session = with_records(b.session, 2, n);
    })
}

fn voice_players(rt: &impl Print, text: &str, count: usize) -> io::Result<()> {
    first(rt, text, 1, |b| {
        b.session = with_records(b.session, 1, 32);
        b.voice = crowded(b.voice);
        b.voice.players.count = count;
    })
}

fn record_cases(rt: &impl Print) -> io::Result<()> {
    records(rt, "8 records 512", 512)?;
    records(rt, "8 records 513", 513)?;
    voice_records(rt, "8 records of one voice 32", 32)?;
    voice_records(rt, "8 records of one voice 33", 33)?;
    voice_players(rt, "8 players 32", 32)?;
    voice_players(rt, "8 players 33", 33)?;
    record(rt, "8 region 1 of a record", 2, 1)?;
    record(rt, "8 region 2 of a record", 2, 2)
}

// ---- 8: the voice beside the session

fn rate_cases(rt: &impl Print) -> io::Result<()> {
    let cases = [
        ("8 rate 192,000", 192000.0),
        ("8 rate 192,000.02", 192000.02),
        ("8 rate 8,000", 8000.0),
        ("8 rate 7,999.9995", 7999.9995),
    ];
    for (text, rate) in cases {
        changed(rt, text, |b| b.voice.sample_rate = rate)?;
    }
    changed(rt, "8 held 16", |b| b.session.held = 16)?;
    changed(rt, "8 held 17", |b| b.session.held = 17)
}

fn slot_cases(rt: &impl Print) -> io::Result<()> {
    let cases = [
        ("8 slots 0 and 1", 0, 1),
        ("8 slots 1 and 0", 1, 0),
        ("8 slots 0 and 2", 0, 2),
    ];
    for (text, first, second) in cases {
        changed(rt, text, |b| {
            b.session.players[0].slot = first;
            b.session.players[1].slot = second;
        })?;
    }
    changed(rt, "8 records 2 of players 2", |b| b.session.count = 2)?;
    changed(rt, "8 records 1 of players 2", |b| b.session.count = 1)
}

// ---- 8: a player

fn place_cases(rt: &impl Print) -> io::Result<()> {
    player(rt, "8 player's region 1", 1, |p| p.region = 1)?;
    player(rt, "8 player's region 2", 1, |p| p.region = 2)?;
    let cases = [
        ("8 player's sample 0", Some(0)),
        ("8 player's sample 1", Some(1)),
        ("8 player's sample silence", None),
        ("8 player's sample before silence", Some(0xffff_fffe)),
    ];
    for (text, sample) in cases {
        player(rt, text, 1, |p| p.sample = sample)?;
    }
    Ok(())
}

fn filter_cases(rt: &impl Print) -> io::Result<()> {
    player(rt, "8 span 40", 1, |p| p.cold.span.half = 40)?;
    player(rt, "8 span 41", 1, |p| p.cold.span.half = 41)?;
    player(rt, "8 filters 6", 1, |p| p.cold.n_filters = 6)?;
    player(rt, "8 filters 7", 1, |p| p.cold.n_filters = 7)?;
    player(rt, "8 stages 3", 1, |p| set_stages(p, 3))?;
    player(rt, "8 stages 4", 1, |p| set_stages(p, 4))
}

// Of the second player.
fn loop_cases(rt: &impl Print) -> io::Result<()> {
    let cases = [
        ("8 loop 5 to 5", 5, 5, 1.0, 2),
        ("8 loop 5 to 4", 5, 4, 0.0, 2),
        ("8 loop end 7 of 8 frames", 2, 7, 6.0, 2),
        ("8 loop end 8 of 8 frames", 2, 8, 7.0, 2),
        ("8 loop size 4 of 2 to 5", 2, 5, 4.0, 2),
        ("8 loop size 5 of 2 to 5", 2, 5, 5.0, 2),
        ("8 loop fade 2 of start 2", 2, 5, 4.0, 2),
        ("8 loop fade 3 of start 2", 2, 5, 4.0, 3),
    ];
    for (text, start, end, size, frames) in cases {
        let fade = Some(Fade { frames, start: end });
        let l = LoopRt {
            start,
            end,
            size,
            fade,
        };
        player(rt, text, 1, |p| p.cold.lp = Some(l))?;
    }
    Ok(())
}

fn last_cases(rt: &impl Print) -> io::Result<()> {
    let cases = [
        ("8 last 7 of 8 frames", 1, 7),
        ("8 last 8 of 8 frames", 1, 8),
        ("8 last 4,294,967,294 of silence", 0, 0xffff_fffe),
        ("8 last 4,294,967,295 of silence", 0, 0xffff_ffff),
    ];
    for (text, k, last) in cases {
        player(rt, text, k, |p| p.cold.last = last)?;
    }
    Ok(())
}

fn position_cases(rt: &impl Print) -> io::Result<()> {
    let cases = [
        ("8 position 0", 0.0),
        ("8 position below 0", -1e-300),
        ("8 position 8,589,934,592", 8589934592.0),
        ("8 position above 8,589,934,592", 8589934592.000002),
        ("8 position not a number", f64::NAN),
    ];
    for (text, position) in cases {
        player(rt, text, 1, |p| p.hot.pos = position)?;
    }
    Ok(())
}

fn step_cases(rt: &impl Print) -> io::Result<()> {
    let cases = [
        ("8 step 0", 0.0),
        ("8 step below 0", -1e-300),
        ("8 step 4,096", 4096.0),
        ("8 step above 4,096", 4096.000000000001),
        ("8 step not a number", f64::NAN),
    ];
    for (text, step) in cases {
        player(rt, text, 1, |p| p.cold.step = step)?;
    }
    Ok(())
}

// ---- 8: the program

fn bound_cases(rt: &impl Print) -> io::Result<()> {
    let p = program();
    let cases = [
        ("8 bound regions 2 of 2", BoundProgram { regions: 2, ..p }),
        ("8 bound regions 3 of 2", BoundProgram { regions: 3, ..p }),
        ("8 bound samples 1 of 1", BoundProgram { samples: 1, ..p }),
        ("8 bound samples 2 of 1", BoundProgram { samples: 2, ..p }),
        ("8 bound frames 8 of 8", BoundProgram { frames: 8, ..p }),
        ("8 bound frames 9 of 8", BoundProgram { frames: 9, ..p }),
        ("8 bound frames 7 of 8", BoundProgram { frames: 7, ..p }),
    ];
    for (text, program) in cases {
        changed(rt, text, |b| b.voice.program = program)?;
    }
    Ok(())
}

fn lent(rt: &impl Print, text: &str, lent: Lent<'_>) -> io::Result<()> {
    outcome(rt, text, &good(), USUAL, lent)
}

// The first n words of three regions, where two are bound.
fn first_words(rt: &impl Print, text: &str, n: usize) -> io::Result<()>
    requires { n ≤ 1176 }
{
    let [silent, looped] = regions();
    let words = [silent, looped, silent];
    lent(rt, text, lent_with(&words.as_flattened()[..n]))
}

// The first n words of two samples, where one is bound.
fn first_sample_words(rt: &impl Print, text: &str, n: usize) -> io::Result<()>
    requires { n ≤ 8 }
{
    let words = regions();
    let samples = [ONE_SAMPLE; 2];
    let parts = Lent {
        samples: &samples.as_flattened()[..n],
        ..lent_with(words.as_flattened())
    };
    lent(rt, text, parts)
}

fn word_count_cases(rt: &impl Print) -> io::Result<()> {
    first_words(rt, "8 words 785 of 784", 785)?;
    first_words(rt, "8 words 783 of 784", 783)?;
    first_sample_words(rt, "8 sample words 5 of 4", 5)?;
    first_sample_words(rt, "8 sample words 3 of 4", 3)
}

fn lent_part_cases(rt: &impl Print) -> io::Result<()> {
    let words = regions();
    let usual = lent_with(words.as_flattened());
    let cases = [
        (
            "8 frames lent 9 of 8",
            Lent {
                pcm: &PCM[..9],
                ..usual
            },
        ),
        (
            "8 frames lent 7 of 8",
            Lent {
                pcm: &PCM[..7],
                ..usual
            },
        ),
        (
            "8 table 8,195",
            Lent {
                table: &TABLE[..8195],
                ..usual
            },
        ),
        (
            "8 table 8,193",
            Lent {
                table: &TABLE[..8193],
                ..usual
            },
        ),
    ];
    for (text, parts) in cases {
        lent(rt, text, parts)?;
    }
    Ok(())
}

// Words of region 1.
fn word_cases(rt: &impl Print) -> io::Result<()> {
    let cases = [
        ("8 filters of region 1: 6", FILTERS, 6),
        ("8 filters of region 1: 7", FILTERS, 7),
        ("8 hikey of region 1: 127", HIKEY, 127),
        ("8 hikey of region 1: 128", HIKEY, 128),
    ];
    for (text, place, value) in cases {
        let [silent, mut looped] = regions();
        put(&mut looped, place, value);
        lent(rt, text, lent_with([silent, looped].as_flattened()))?;
    }
    Ok(())
}

// Words of sample 0, with a frame lent beyond its own.
fn sample_word_cases(rt: &impl Print) -> io::Result<()> {
    let words = regions();
    let usual = lent_with(words.as_flattened());
    let cases = [
        ("8 channels of sample 0: 1", CHANNELS, 1),
        ("8 channels of sample 0: 3", CHANNELS, 3),
        ("8 frames of sample 0: 8 of 8", FRAMES, 8),
        ("8 frames of sample 0: 9 of 8", FRAMES, 9),
    ];
    for (text, place, value) in cases {
        let mut sample = ONE_SAMPLE;
        put(&mut sample, place, value);
        let parts = Lent {
            samples: &sample,
            pcm: &PCM,
            ..usual
        };
        lent(rt, text, parts)?;
    }
    Ok(())
}

// ---- a voice's 32 players

// One frame of a stroke that starts every region of these.
fn crowd(rt: &impl Print, text: &str, regions: &[RegionWords]) -> io::Result<()> {
    let parts = lent_with(regions.as_flattened());
    let t = BlockTime {
        frames: 1,
        offset: 0,
    };
    let b = played(&fresh(parts), t, parts);
    println!(rt;
        "{text}: players {}, records {}, dropped {}",
        b.voice.players.count, b.session.count, b.voice.dropped
    )
}

fn crowds(rt: &impl Print) -> io::Result<()> {
    crowd(rt, "starts 32", &[silent_region(); 32])?;
    crowd(rt, "starts 33", &[silent_region(); 33])
}

// ---- which cause goes first

fn order(rt: &impl Print, text: &str, frames: usize, held: u32) -> io::Result<()> {
    let mut b = good();
    b.session.held = held;
    let t = BlockTime {
        frames,
        offset: PAST,
    };
    timed(rt, text, &b, t)
}

fn orders(rt: &impl Print) -> io::Result<()> {
    let mut s = made(16);
    s.voices.next_voice = PAST;
    make(rt, "5 before 6 and 9", &s, 0.0)?;
    make(rt, "6 before 9", &s, RATE)?;
    order(rt, "7 before 8 and 9", 129, 17)?;
    order(rt, "8 before 9", 128, 17)?;
    order(rt, "9 after 7 and 8", 128, 16)
}

// ---- that a change would be seen

// Whether the good state, changed so, is the same.
fn told<F: FnOnce(&mut Both)>(rt: &impl Print, text: &str, change: F) -> io::Result<()>
    requires { F.IsAlwaysCallable change }
{
    let b = good();
    let mut c = b;
    change(&mut c);
    let same = c.session == b.session && c.voice.same_bits(&b.voice);
    println!(rt; "{text}: {}", if same { "same" } else { "differs" })
}

fn changes(rt: &impl Print) -> io::Result<()> {
    told(rt, "session", |_| {})?;
    told(
        rt,
        "session, last record",
        |b| b.session.players[511].slot = 1,
    )?;
    told(rt, "session, last id", |b| b.session.voices.ids[15] = 1)?;
    told(rt, "voice", |_| {})?;
    told(rt, "voice, last player's last filter", |b| {
        set_stages(&mut b.voice.players.players[31], 3);
    })?;
    told(rt, "voice, last player's position minus 0", |b| {
        b.voice.players.players[31].hot.pos = -0.0;
    })
}

fn player_cases(rt: &impl Print) -> io::Result<()> {
    place_cases(rt)?;
    filter_cases(rt)?;
    loop_cases(rt)?;
    last_cases(rt)?;
    position_cases(rt)?;
    step_cases(rt)
}

fn program_cases(rt: &impl Print) -> io::Result<()> {
    bound_cases(rt)?;
    word_count_cases(rt)?;
    lent_part_cases(rt)?;
    word_cases(rt)?;
    sample_word_cases(rt)
}

// In the order of the stored lines. A table to walk would name each step too, and functions of an `&impl Print` have no one pointer type.
fn write(rt: &impl Print) -> io::Result<()> {
    rates(rt)?;
    makes(rt)?;
    frame_cases(rt)?;
    output_cases(rt)?;
    input_cases(rt)?;
    session_cases(rt)?;
    record_cases(rt)?;
    rate_cases(rt)?;
    slot_cases(rt)?;
    player_cases(rt)?;
    program_cases(rt)?;
    time_cases(rt)?;
    orders(rt)?;
    crowds(rt)?;
    changes(rt)
}

// What cannot be written is lost: the program ends as it does where all is written.
fn main(rt: HostRuntime) {
    let _ = write(&rt);
}
