// The regions that a note-on starts, and those that its release starts: the tests of the Rust's `note_on` and `dispatch_release`.
ghost use Rattle.std.specs.Prelude.{◌≡◌};
ghost use Rattle.program.specs.Region.{region_at};
ghost use Rattle.session.specs.Tests.{attack_playing};
ghost use Rattle.note.specs.Choice.{draw_in, hears_velocity, may_start, triggered_on, starts_on, chosen_step, chosen_on, window_in, triggered_off, starts_off, chosen_off, chosen_from, moved};

use super::{Chosen, NONE_CHOSEN};
use program::lookup::{choice_at, holds_key, window_at};
use program::region::{Rand, Trigger};
use session::{Sequences, Session, Window, attack_playing};

// The sequences, and the regions that start.
#[derive(Drop)]
pub struct ChosenOn {
    pub seq: Sequences,
    pub chosen: Chosen,
}

// Whether the draw lies in the region's part, its upper end left out.
fn draw_in(r: Option<Rand>, draw: f32) -> bool
    ensures { result ≡ draw_in r draw }
{
    r.is_none_or(|r| r.lo <= draw && draw < r.hi)
}

// What choosing reads: the words of a program's regions and how many they are, the key and the velocity of a note, and its draw.
#[derive(Clone, Copy)]
pub struct Query<'a> {
    pub words: &'a [u32],
    pub regions: u32,
    pub key: u8,
    pub vel: u8,
    pub draw: f32,
}

impl<'a> Query<'a> {
    // Whether region i's velocity window holds the velocity.
    fn hears_velocity(self, i: u32) -> bool
        ensures { result ≡ hears_velocity (region_at self.entry.words.now i) self.entry.vel }
    {
        let w = window_at(self.words, i);
        w.lovel <= self.vel && self.vel <= w.hivel
    }

    // Whether velocity and draw let region i start, where its place in the sequence was hit.
    #[tactic(auto, unfolding(crate::specs::Choice::may_start))]
    fn may_start(self, i: u32, on: bool) -> bool
        ensures { result ≡ may_start (region_at self.entry.words.now i) self.entry.vel self.entry.draw on }
    {
        on && self.hears_velocity(i) && draw_in(choice_at(self.words, i).rand, self.draw)
    }

    // ---- at a note-on, with so many gates held, the new one among them

    // Whether region i starts, its sequence moved already.
    #[tactic(auto, unfolding(crate::specs::Choice::starts_on))]
    fn starts_on(self, q: Sequences, i: u32, held: u32) -> bool
        ensures { result ≡ starts_on (record { words = self.entry.words.now; vel = self.entry.vel; held = held; draw = self.entry.draw }) q i }
    {
        triggered_on(choice_at(self.words, i).trigger, held)
            && self.may_start(i, q.is_on(i as usize))
    }

    // Region i's sequence moves; a region without one stands at 1 of 1.
    fn step_region(self, q: Sequences, i: u32) -> Sequences
        ensures { result ≡ moved (region_at self.entry.words.now i) i q }
    {
        let s = choice_at(self.words, i).seq;
        q.step(
            i as usize,
            s.map_or(1, |t| t.length),
            s.map_or(1, |t| t.position),
        )
    }

    // Region i's sequence moves; where it starts, it is one more.
    #[tactic(auto, unfolding(crate::specs::Choice::chosen_step))]
    fn choose_one(self, c: ChosenOn, i: u32, held: u32) -> ChosenOn
        ensures { result ≡ chosen_step (record { words = self.entry.words.now; vel = self.entry.vel; held = held; draw = self.entry.draw }) c i }
    {
        let seq = self.step_region(c.seq, i);
        let chosen = if self.starts_on(seq, i, held) {
            c.chosen.with(i)
        } else {
            c.chosen
        };
        ChosenOn { seq, chosen }
    }

    // The regions that a note-on starts; the sequences of all regions of the key move.
    pub fn choose_on(self, q: Sequences, held: u32) -> ChosenOn
        ensures { result ≡ chosen_on (record { words = self.entry.words.now; vel = self.entry.vel; held = held; draw = self.entry.draw }) self.entry.regions self.entry.key q }
    {
        let none = ChosenOn {
            seq: q,
            chosen: NONE_CHOSEN,
        };
        (0..self.regions)
            .filter(|i| holds_key(self.words, self.key, *i))
            .fold(none, |c, i| self.choose_one(c, i, held))
    }

    // ---- at a note's release

    // Whether the release starts region i.
    #[tactic(auto, unfolding(crate::specs::Choice::starts_off))]
    fn starts_off(self, s: Session, i: u32) -> bool
        ensures { result ≡ starts_off self.entry.words.now self.entry.vel self.entry.draw s i }
    {
        self.may_start(i, s.seq.is_on(i as usize))
            && triggered_off(
                choice_at(self.words, i).trigger,
                s,
                window_in(self.words, i),
            )
    }

    // The regions that a note's release starts.
    pub fn choose_off(self, s: Session) -> Chosen
        ensures { result ≡ chosen_from (chosen_off self.entry.words.now self.entry.regions self.entry.key self.entry.vel self.entry.draw s) }
    {
        (0..self.regions)
            .filter(|i| holds_key(self.words, self.key, *i))
            .filter(|i| self.starts_off(s, *i))
            .fold(NONE_CHOSEN, |c, i| c.with(i))
    }
}

// Whether the trigger answers a note-on with so many gates held, the new one among them. In no row is it what `triggered_off` says.
fn triggered_on(t: Trigger, held: u32) -> bool
    ensures { result ≡ triggered_on t held }
{
    match t {
        Trigger::Attack => true,
        Trigger::First => held == 1,
        Trigger::Legato => 1 < held,
        Trigger::Release | Trigger::ReleaseKey => false,
    }
}

// The keys and velocities of region i, as the session asks for them. The two windows belong to crates that know nothing of each other,
// so that neither can be made from the other but here.
fn window_in(words: &[u32], i: u32) -> Window
    ensures { result ≡ window_in (region_at words.now i) }
{
    let w = window_at(words, i);
    Window {
        lokey: w.lokey,
        hikey: w.hikey,
        lovel: w.lovel,
        hivel: w.hivel,
    }
}

// Only a `Release` region looks for its attack.
fn triggered_off(t: Trigger, s: Session, w: Window) -> bool
    ensures { result ≡ triggered_off t (attack_playing w s) }
{
    match t {
        Trigger::Release => attack_playing(s, w),
        Trigger::ReleaseKey => true,
        Trigger::Attack | Trigger::First | Trigger::Legato => false,
    }
}
