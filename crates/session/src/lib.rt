// The session: the state that a program's voices share, by value. Its list of records, one for each sounding region of some voice,
// is what chokes and polyphony limits act on. Voices stand above it and rely on these promises alone.
#![tactic(auto)]

ghost use Rattle.std.specs.Prelude.{◌≡◌, true, false, not, Bool, [], length, slice_get, slice_index_or, filter, count_by, position};
ghost use Rattle.session.specs.Lists.{used_of, elem, twice, packed, AnswersAs};
ghost use Rattle.session.specs.Records.{marked, ended, collected, entered, shares_both, choked_by, shares_note, may_yield, of_region, is_sister, quieter, older, of_voice, in_slots, waits, in_window};
ghost use Rattle.session.specs.Rules.{choke, choke_one, mark_sisters, lowest, surplus_of, after_note_polyphony, polyphony, start_marks, enter, without_voice, without_slots, yield_up, end_oldest, mark_ended, collect, collect_first};
ghost use Rattle.session.specs.Offs.{off_for, off_times, add_off, offs_of, collected_offs, took_first};
ghost use Rattle.session.specs.Tests.{is_live, over_live, twice_live, stray_record, over_records, over_voice, over_held, region_outside, slots_in_order, attack_playing};
ghost use Rattle.session.specs.State.{view, relist, no_start, start_list, started_many, slot_list, live_ids, with_voices, opened, freed, with_seq, seq_stepped, seq_hit, serial_up, held_up, held_down, ended_voice, closed_voice, fresh_session, has_place, placed};

// One sounding region of some voice, as the program's other voices see it. The small fields stand together, so that a record takes 56
// bytes and not 64: it is copied often (docs/SPEED.md).
#[derive(Clone, Copy, PartialEq, Eq, Default)]
pub struct PlayerRecord {
    pub voice: u64,
    pub slot: u32,
    pub region: u32,
    pub group: i32,
    pub off_by: Option<i32>,
    pub note: u8,
    pub vel: u8,
    pub on_note: bool,
    pub offed: bool,
    pub start: u64,
    pub off_at: Option<u64>,
}

// For each region its sequence counter, and whether its position was hit at the last note-on of a key in its range. Two arrays of 1,280
// bytes: an array of both together would take 2,048, since a flag would be padded to a counter's size, in a value that calls copy.
#[derive(Clone, Copy, PartialEq, Eq)]
pub struct Sequences {
    pub seq_counter: [u32; 256],
    pub seq_on: [bool; 256],
}

// The ids of the live voices, and the next id. A list is an array with its count beside it, here and in each type below: memory is fixed,
// and there is no heap.
#[derive(Clone, Copy, PartialEq, Eq)]
pub struct LiveVoices {
    pub ids: [u64; 16],
    pub count: usize,
    pub next_voice: u64,
}

#[derive(Clone, Copy, PartialEq, Eq)]
pub struct Session {
    pub players: [PlayerRecord; 512],
    pub count: usize,
    pub seq: Sequences,
    pub voices: LiveVoices,
    pub event_serial: u64,
    pub held: u32,
}

// A region that starts: what its record will hold, the time, and its limits.
#[derive(Clone, Copy, PartialEq, Eq, Default)]
pub struct Start {
    pub voice: u64,
    pub region: u32,
    pub group: i32,
    pub off_by: Option<i32>,
    pub note: u8,
    pub vel: u8,
    pub on_note: bool,
    pub serial: u64,
    pub at: u64,
    pub note_polyphony: Option<u32>,
    pub polyphony: Option<u32>,
}

// The starts of one event, in turn.
#[derive(PartialEq, Eq, Drop)]
pub struct Starts {
    pub starts: [Start; 256],
    pub count: usize,
}

// Slots of a voice's players, in order.
#[derive(Clone, Copy, PartialEq, Eq)]
pub struct Slots {
    pub slots: [u32; 32],
    pub count: usize,
}

// The keys and velocities of a region, as program's own `Window` has them: session stands on no crate, and the crate over both may write no
// `From` between two types of others.
#[derive(Clone, Copy, PartialEq, Eq)]
pub struct Window {
    pub lokey: u8,
    pub hikey: u8,
    pub lovel: u8,
    pub hivel: u8,
}

// A slot, and the time at which it is turned off.
#[derive(Clone, Copy, PartialEq, Eq, Default)]
pub struct Off {
    pub slot: u32,
    pub at: u64,
}

#[derive(Clone, Copy, PartialEq, Eq)]
pub struct Offs {
    pub offs: [Off; 32],
    pub count: usize,
}

// What a call hands out beside the session. The field is named by what it is, here and in the next two: of a tuple it would be `.1`.
#[derive(PartialEq, Eq, Drop)]
pub struct Collected {
    pub session: Session,
    pub offs: Offs,
}

// A session, and the first off time that a voice has taken from it.
#[derive(PartialEq, Eq, Drop)]
pub struct Took {
    pub session: Session,
    pub first: Option<Off>,
}

// A session, with a new voice and its id where one had a place.
#[derive(PartialEq, Eq, Drop)]
pub struct Opened {
    pub session: Session,
    pub id: Option<u64>,
}

// ---- one record

impl PlayerRecord {
    // With its off mark set and its off time.
    fn marked(self, at: u64) -> PlayerRecord
        ensures { result ≡ marked at self }
    {
        PlayerRecord {
            offed: true,
            off_at: Some(at),
            ..self
        }
    }

    // Of a player whose sample has ended.
    fn ended(self) -> PlayerRecord
        ensures { result ≡ ended self }
    {
        PlayerRecord {
            offed: true,
            ..self
        }
    }

    // With its off time taken.
    fn collected(self) -> PlayerRecord
        ensures { result ≡ collected self }
    {
        PlayerRecord {
            off_at: None,
            ..self
        }
    }

    // Whether it is unmarked and has this voice and start.
    #[tactic(auto, unfolding(crate::specs::Records::is_sister))]
    fn is_sister(self, voice: u64, start: u64) -> bool
        ensures { result ≡ is_sister voice start self }
    {
        !self.offed && self.voice == voice && self.start == start
    }

    #[tactic(auto, unfolding(crate::specs::Records::older))]
    fn is_older(self, than: PlayerRecord) -> bool
        ensures { result ≡ older self than }
    {
        self.start < than.start
    }

    // Whether it has the lower velocity, or the same and the lower start.
    #[tactic(auto, unfolding(crate::specs::Records::quieter, crate::specs::Records::older))]
    fn is_quieter(self, than: PlayerRecord) -> bool
        ensures { result ≡ quieter self than }
    {
        (self.vel, self.start) < (than.vel, than.start)
    }

    // Whether it is the voice's, in one of the slots.
    #[tactic(auto, unfolding(crate::specs::Records::in_slots))]
    fn in_slots(self, voice: u64, slots: &[u32]) -> bool
        ensures { result ≡ in_slots voice slots.now self }
    {
        self.voice == voice && slots.contains(&self.slot)
    }

    // Whether it is the voice's and its off time waits.
    #[tactic(auto, unfolding(crate::specs::Records::waits))]
    pub fn is_waiting(self, voice: u64) -> bool
        ensures { result ≡ waits voice self }
    {
        self.voice == voice && self.off_at.is_some()
    }

    // Its off time with its slot, where it is the voice's and its off time waits.
    #[tactic(auto, unfolding(crate::specs::Offs::off_for, crate::specs::Records::waits))]
    fn off_for(self, voice: u64) -> Option<Off>
        ensures { result ≡ off_for voice self }
    {
        let off = self.off_at.map(|at| Off {
            slot: self.slot,
            at,
        });
        off.filter(|_| self.voice == voice)
    }

    // Whether it is a note-on record whose note and velocity lie in the window.
    #[tactic(auto, unfolding(crate::specs::Records::in_window))]
    fn in_window(self, w: Window) -> bool
        ensures { result ≡ in_window w self }
    {
        self.on_note
            && (w.lokey..=w.hikey).contains(&self.note)
            && (w.lovel..=w.hivel).contains(&self.vel)
    }
}

// ---- what a start asks of a record, and the record that it enters

impl Start {
    // Whether the record has both its group and its note.
    #[tactic(auto, unfolding(crate::specs::Records::shares_both))]
    fn shares_both(self, r: PlayerRecord) -> bool
        ensures { result ≡ shares_both self r }
    {
        r.group == self.group && r.note == self.note
    }

    // Whether it chokes the record.
    #[tactic(auto, unfolding(crate::specs::Records::choked_by))]
    fn chokes(self, r: PlayerRecord) -> bool
        ensures { result ≡ choked_by self r }
    {
        !r.offed && r.on_note && r.off_by == Some(self.group) && !self.shares_both(r)
    }

    // Whether the record is unmarked and shares group and note with it.
    #[tactic(auto, unfolding(crate::specs::Records::shares_note))]
    fn shares_note(self, r: PlayerRecord) -> bool
        ensures { result ≡ shares_note self r }
    {
        !r.offed && self.shares_both(r)
    }

    // Whether it is so, and no louder than the new note.
    #[tactic(auto, unfolding(crate::specs::Records::may_yield))]
    fn may_take(self, r: PlayerRecord) -> bool
        ensures { result ≡ may_yield self r }
    {
        self.shares_note(r) && r.vel <= self.vel
    }

    // Whether the record is unmarked and has its region.
    #[tactic(auto, unfolding(crate::specs::Records::of_region))]
    fn shares_region(self, r: PlayerRecord) -> bool
        ensures { result ≡ of_region self r }
    {
        !r.offed && r.region == self.region
    }

    // Its record, in a slot of its voice. The seven fields that both have stand in each by themselves: a struct of them would put a second
    // name before each of the seven wherever a record is read.
    fn entered(self, slot: u32) -> PlayerRecord
        ensures { result ≡ entered self slot }
    {
        PlayerRecord {
            voice: self.voice,
            slot,
            region: self.region,
            group: self.group,
            off_by: self.off_by,
            note: self.note,
            vel: self.vel,
            on_note: self.on_note,
            start: self.serial,
            ..PlayerRecord::default()
        }
    }
}

// The record once the start is there: marked where the start chokes it.
#[tactic(auto, unfolding(crate::specs::Rules::choke_one))]
pub fn choke_one(r: PlayerRecord, st: Start) -> PlayerRecord
    ensures { result ≡ choke_one st r }
{
    if st.chokes(r) { r.marked(st.at) } else { r }
}

// ---- what is in use of the arrays

// How many places of an array of N are in use: the count, but never past the array.
pub fn used<const N: usize>(count: usize) -> usize
    ensures { result ≡ used_of N count }
{
    count.min(N)
}

impl Session {
    // The records in use, in order.
    fn records(&self) -> &[PlayerRecord]
        ensures { result.now ≡ view self.now }
    {
        let n = used::<512>(self.count);
        &self.players[..n]
    }
}

impl Starts {
    // The starts in use, in order.
    fn as_slice(&self) -> &[Start]
        ensures { result.now ≡ start_list self.now }
    {
        let n = used::<256>(self.count);
        &self.starts[..n]
    }
}

impl Slots {
    // The slots in use, in order.
    fn as_slice(&self) -> &[u32]
        ensures { result.now ≡ slot_list self.now }
    {
        let n = used::<32>(self.count);
        &self.slots[..n]
    }
}

impl LiveVoices {
    // The ids of the live voices, in the order of their making.
    fn as_slice(&self) -> &[u64]
        ensures { result.now ≡ live_ids self.now }
    {
        let n = used::<16>(self.count);
        &self.ids[..n]
    }
}

// ---- what a starting region marks, in place on the records in use
//
// The walks that change records are three lines each: one over closures for the test and the change would be no plainer, for its
// clauses would have to say what either answers.

// Marks each record that the start chokes.
pub fn choke(records: &mut [PlayerRecord], st: Start)
    ensures { records.new ≡ choke st records.old }
{
    for r in records {
        if st.chokes(*r) {
            *r = r.marked(st.at);
        }
    }
}

// Marks each unmarked record of the voice and the start: the two by themselves, since each of the three callers has them apart, and a
// struct of both would be packed at each call to be compared field by field.
fn mark_sisters(records: &mut [PlayerRecord], voice: u64, start: u64, at: u64)
    ensures { records.new ≡ mark_sisters voice start at records.old }
{
    for r in records {
        if r.is_sister(voice, start) {
            *r = r.marked(at);
        }
    }
}

// How many have to go so that one more keeps to the limit, 0 acting as 1.
fn surplus(count: usize, limit: u32) -> usize
    ensures { result ≡ surplus_of count limit }
{
    count.saturating_sub((limit as usize).max(1) - 1)
}

impl Start {
    // Among the records no louder than the new note the quietest, then the oldest; of several the earliest in the list.
    fn quietest(self, records: &[PlayerRecord]) -> Option<PlayerRecord>
        ensures { result ≡ lowest (may_yield self) quieter records.now }
    {
        records
            .iter()
            .copied()
            .filter(|r| self.may_take(*r))
            .reduce(|best, r| if r.is_quieter(best) { r } else { best })
    }

    // Among the records of the region the oldest; of several the earliest in the list.
    fn oldest(self, records: &[PlayerRecord]) -> Option<PlayerRecord>
        ensures { result ≡ lowest (of_region self) older records.now }
    {
        records
            .iter()
            .copied()
            .filter(|r| self.shares_region(*r))
            .reduce(|best, r| if r.is_older(best) { r } else { best })
    }

    // As often as `rounds` says one record yields, with its sisters, until none may.
    fn yield_up(self, records: &mut [PlayerRecord], rounds: usize)
        ensures { records.new ≡ yield_up self rounds records.old }
    {
        for round in 0..rounds {
            let Some(c) = self.quietest(records) else {
                return;
            };
            mark_sisters(records, c.voice, c.start, self.at);
        }
    }

    // Note polyphony.
    #[tactic(auto, unfolding(crate::specs::Rules::after_note_polyphony))]
    fn limit_note(self, records: &mut [PlayerRecord])
        ensures { records.new ≡ after_note_polyphony self records.old }
    {
        if let Some(n) = self.note_polyphony {
            let count = records.iter().filter(|r| self.shares_note(**r)).count();
            self.yield_up(records, surplus(count, n));
        }
    }

    // Marks the oldest record of the region with its sisters.
    #[tactic(auto, unfolding(crate::specs::Rules::end_oldest))]
    fn end_oldest(self, records: &mut [PlayerRecord])
        ensures { records.new ≡ end_oldest self records.old }
    {
        if let Some(old) = self.oldest(records) {
            mark_sisters(records, old.voice, old.start, self.at);
        }
    }

    // Polyphony by region.
    #[tactic(auto, unfolding(crate::specs::Rules::polyphony))]
    fn limit_region(self, records: &mut [PlayerRecord])
        ensures { records.new ≡ polyphony self records.old }
    {
        if let Some(p) = self.polyphony {
            let count = records.iter().filter(|r| self.shares_region(**r)).count();
            if p as usize <= count {
                self.end_oldest(records);
            }
        }
    }

    // What a starting region, dropped or not, marks: the choke, then note polyphony, then polyphony by region.
    #[tactic(auto, unfolding(crate::specs::Rules::start_marks))]
    fn mark(self, records: &mut [PlayerRecord])
        ensures { records.new ≡ start_marks self records.old }
    {
        choke(records, self);
        self.limit_note(records);
        self.limit_region(records);
    }
}

// ---- the same of a session
//
// Each takes the list in use apart from the places behind it, in the same three lines: a method that lends `&mut self.players[..n]` was
// tried, and what the session is once the slice is given back was not proved of a part of an array.

pub fn choke_all(s: Session, st: Start) -> Session
    ensures { result ≡ relist (choke st (view s)) s }
{
    let n = used::<512>(s.count);
    let mut t = s;
    t.count = n;
    let (records, _) = t.players.split_at_mut(n);
    choke(records, st);
    t
}

// Marks each unmarked record of the voice and the start.
pub fn off_with_sisters(s: Session, voice: u64, start: u64, at: u64) -> Session
    ensures { result ≡ relist (mark_sisters voice start at (view s)) s }
{
    let n = used::<512>(s.count);
    let mut t = s;
    t.count = n;
    let (records, _) = t.players.split_at_mut(n);
    mark_sisters(records, voice, start, at);
    t
}

// The same in place: a call that takes a session copies it.
fn mark_for(s: &mut Session, st: Start)
    ensures { s.new ≡ relist (start_marks st (view s.old)) s.old }
{
    let n = used::<512>(s.count);
    s.count = n;
    let (records, _) = s.players.split_at_mut(n);
    st.mark(records);
}

pub fn start_marks(s: Session, st: Start) -> Session
    ensures { result ≡ relist (start_marks st (view s)) s }
{
    let mut t = s;
    mark_for(&mut t, st);
    t
}

// ---- entering and removing

impl Session {
    // One more record at the end of the list, where it has room.
    #[tactic(auto, unfolding(crate::specs::Rules::enter))]
    fn push(&mut self, r: PlayerRecord)
        ensures { self.new ≡ relist (enter r (view self.old)) self.old }
    {
        let n = used::<512>(self.count);
        self.count = n;
        if n < 512 {
            self.players[n] = r;
            self.count = n + 1;
        }
    }
}

pub fn enter_record(s: Session, st: Start, slot: u32) -> Session
    ensures { result ≡ relist (enter (entered st slot) (view s)) s }
{
    let mut t = s;
    t.push(st.entered(slot));
    t
}

// An empty place of the starts.
pub fn no_start() -> Start
    ensures { result ≡ no_start }
{
    Start::default()
}

// The starts of one event, in turn. The voice holds `held` players, and `slot` is its next slot: each start marks, and where the voice
// then holds fewer than 32 its record enters in the next slot. All in place: a call that takes a session copies it.
pub fn start_many(s: Session, b: Starts, held: usize, slot: u32) -> Session
    ensures { result ≡ started_many (start_list b) held slot s }
{
    let mut t = s;
    let mut count = held;
    let mut next = slot;
    for st in b.as_slice() {
        mark_for(&mut t, *st);
        if count < 32 {
            t.push(st.entered(next));
            count += 1;
            next = next.wrapping_add(1);
        }
    }
    t
}

// The elements that stay move up and keep their order: how many there are. By index, since one slice is read and written.
fn retain<T: Copy, F: Fn(&T) -> bool>(items: &mut [T], stays: F) -> usize
    requires { F.IsAlwaysCallable stays }
    ensures { (p : T → Bool) → AnswersAs (F.post stays) p → (items.new ≡ packed (filter p items.old) items.old) × (result ≡ length (filter p items.old)) }
{
    let mut kept = 0;
    for i in 0..items.len() {
        let x = items[i];
        if stays(&x) {
            items[kept] = x;
            kept += 1;
        }
    }
    kept
}

// Removes the voice's records.
pub fn remove_voice(s: Session, voice: u64) -> Session
    ensures { result ≡ relist (without_voice voice (view s)) s }
{
    let n = used::<512>(s.count);
    let mut t = s;
    let (records, _) = t.players.split_at_mut(n);
    t.count = retain(records, |r| r.voice != voice);
    t
}

// Removes the voice's records in the slots. A voice hands its id and slots to this and two calls below: one struct of both would be packed
// at each call, and taken apart by the test of a record.
pub fn remove_slots(s: Session, voice: u64, ks: Slots) -> Session
    ensures { result ≡ relist (without_slots voice (slot_list ks) (view s)) s }
{
    let slots = ks.as_slice();
    let n = used::<512>(s.count);
    let mut t = s;
    let (records, _) = t.players.split_at_mut(n);
    t.count = retain(records, |r| !r.in_slots(voice, slots));
    t
}

// ---- the live voices

// Whether the session has a live voice with this id.
#[tactic(auto, unfolding(crate::specs::Tests::is_live))]
pub fn is_live(s: &Session, id: u64) -> bool
    ensures { result ≡ is_live id s.now }
{
    s.voices.as_slice().contains(&id)
}

impl LiveVoices {
    // Whether fewer than sixteen voices are live and the next id is within its limit.
    fn has_place(self) -> bool
        ensures { result ≡ has_place self }
    {
        self.count < 16 && self.next_voice <= 0x8000_0000_0000_0000
    }

    // The next id takes a place.
    fn push_next(&mut self)
        requires { has_place self.old ≡ true }
        ensures { self.new ≡ placed self.old }
    {
        self.ids[self.count] = self.next_voice;
        self.count += 1;
        self.next_voice += 1;
    }
}

// A new voice: its id, and its place among the live ones.
#[tactic(auto, unfolding(crate::specs::State::opened))]
pub fn new_voice(s: Session) -> Opened
    ensures { result ≡ opened s }
{
    let mut voices = s.voices;
    if !voices.has_place() {
        return Opened {
            session: s,
            id: None,
        };
    }
    voices.push_next();
    Opened {
        session: Session { voices, ..s },
        id: Some(s.voices.next_voice),
    }
}

// Frees the voice's place.
pub fn free_voice(s: Session, id: u64) -> Session
    ensures { result ≡ with_voices (freed id s.voices) s }
{
    let n = used::<16>(s.voices.count);
    let mut t = s;
    let (ids, _) = t.voices.ids.split_at_mut(n);
    t.voices.count = retain(ids, |x| *x != id);
    t
}

// ---- sequences, the event serial and the held gates

// Whether the counter stands at the sequence's position.
fn seq_hit(c: u32, length: u32, position: u32) -> bool
    ensures { result ≡ seq_hit c length position }
{
    length != 0 && c % length + 1 == position
}

impl Sequences {
    // Whether the region's position was hit at the last note-on of a key in its range.
    pub fn is_on(self, region: usize) -> bool
        ensures { result ≡ slice_index_or self.seq_on region false }
    {
        self.seq_on.get(region).copied().unwrap_or(false)
    }

    // A note-on in the region's range moves its counter and sets its flag. Length and position come as they stand in program's `Seq`, a
    // type of a crate that this one does not stand on.
    #[tactic(auto, unfolding(crate::specs::State::seq_stepped))]
    pub fn step(self, region: usize, length: u32, position: u32) -> Sequences
        ensures { result ≡ seq_stepped region length position self }
    {
        if 256 <= region {
            return self;
        }
        let mut t = self;
        let c = t.seq_counter[region];
        t.seq_counter[region] = c.wrapping_add(1);
        t.seq_on[region] = seq_hit(c, length, position);
        t
    }
}

// The same of the session's.
pub fn seq_step(s: Session, region: u32, length: u32, position: u32) -> Session
    ensures { result ≡ with_seq (seq_stepped region length position s.seq) s }
{
    Session {
        seq: s.seq.step(region as usize, length, position),
        ..s
    }
}

pub fn seq_is_on(s: Session, region: u32) -> bool
    ensures { result ≡ slice_index_or s.seq.seq_on region false }
{
    s.seq.is_on(region as usize)
}

// One event more.
pub fn next_serial(s: Session) -> Session
    ensures { result ≡ serial_up s }
{
    let n = s.event_serial.wrapping_add(1);
    Session {
        event_serial: n,
        ..s
    }
}

// One held gate more.
pub fn raise_held(s: Session) -> Session
    ensures { result ≡ held_up s }
{
    let n = s.held.wrapping_add(1);
    Session { held: n, ..s }
}

// One held gate less.
pub fn lower_held(s: Session) -> Session
    ensures { result ≡ held_down s }
{
    let n = s.held.saturating_sub(1);
    Session { held: n, ..s }
}

// The end of all of a voice's notes: its records leave the list, and its gate is held no more. `gate_held` is the voice's state, which its
// own record of the gate gives.
pub fn end_voice(s: Session, voice: u64, gate_held: bool) -> Session
    ensures { result ≡ ended_voice voice gate_held s }
{
    let t = remove_voice(s, voice);
    if gate_held { lower_held(t) } else { t }
}

// The same, and the voice's place is free for a new one.
pub fn close_voice(s: Session, voice: u64, gate_held: bool) -> Session
    ensures { result ≡ closed_voice voice gate_held s }
{
    let t = end_voice(s, voice, gate_held);
    free_voice(t, voice)
}

// A session without records and without voices.
#[tactic(auto, unfolding(crate::specs::State::fresh_session))]
pub fn fresh_session() -> Session
    ensures { result ≡ fresh_session }
{
    Session {
        players: [PlayerRecord::default(); 512],
        count: 0,
        seq: Sequences {
            seq_counter: [0; 256],
            seq_on: [false; 256],
        },
        voices: LiveVoices {
            ids: [0; 16],
            count: 0,
            next_voice: 1,
        },
        event_serial: 0,
        held: 0,
    }
}

// ---- a voice's own off times

impl Offs {
    fn new() -> Offs
        ensures { result ≡ offs_of [] }
    {
        Offs {
            offs: [Off::default(); 32],
            count: 0,
        }
    }

    #[tactic(auto, unfolding(crate::specs::Offs::add_off))]
    fn push(&mut self, off: Off)
        ensures { self.new ≡ add_off off self.old }
    {
        if self.count < 32 {
            self.offs[self.count] = off;
            self.count += 1;
        }
    }
}

// Takes the off times that wait on the voice's records, in list order.
fn collect(records: &mut [PlayerRecord], voice: u64) -> Offs
    ensures taken { records.new ≡ collect voice records.old }
    ensures offs { result ≡ offs_of (off_times voice records.old) }
{
    let mut offs = Offs::new();
    for r in records {
        if let Some(off) = r.off_for(voice) {
            offs.push(off);
            *r = r.collected();
        }
    }
    offs
}

pub fn collect_offs(s: Session, voice: u64) -> Collected
    ensures { result ≡ collected_offs voice s }
{
    let n = used::<512>(s.count);
    let mut t = s;
    t.count = n;
    let (records, _) = t.players.split_at_mut(n);
    let offs = collect(records, voice);
    Collected { session: t, offs }
}

// Where the first of the voice's waiting off times stands.
fn first_waiting(records: &[PlayerRecord], voice: u64) -> Option<usize>
    ensures { result ≡ position (waits voice) records.now }
{
    records.iter().position(|r| r.is_waiting(voice))
}

// Takes the first off time that waits on the voice's records.
#[tactic(auto, unfolding(crate::specs::Rules::collect_first))]
fn take_first(records: &mut [PlayerRecord], voice: u64) -> Option<Off>
    ensures taken { records.new ≡ collect_first voice records.old }
    ensures first { result ≡ slice_get (off_times voice records.old) 0 }
{
    let k = first_waiting(records, voice)?;
    let r = records[k];
    records[k] = r.collected();
    r.off_for(voice)
}

pub fn take_first_off(s: Session, voice: u64) -> Took
    ensures { result ≡ took_first voice s }
{
    let n = used::<512>(s.count);
    let mut t = s;
    t.count = n;
    let (records, _) = t.players.split_at_mut(n);
    let first = take_first(records, voice);
    Took { session: t, first }
}

// Marks the voice's records in the slots as ended.
fn end_slots(records: &mut [PlayerRecord], voice: u64, slots: &[u32])
    ensures { records.new ≡ mark_ended voice slots.now records.old }
{
    for r in records {
        if r.in_slots(voice, slots) {
            *r = r.ended();
        }
    }
}

pub fn mark_ended(s: Session, voice: u64, ks: Slots) -> Session
    ensures { result ≡ relist (mark_ended voice (slot_list ks) (view s)) s }
{
    let n = used::<512>(s.count);
    let mut t = s;
    t.count = n;
    let (records, _) = t.players.split_at_mut(n);
    end_slots(records, voice, ks.as_slice());
    t
}

// Whether some note-on record, marked or not, has its note and velocity in the window: the attack that a release region asks for.
#[tactic(auto, unfolding(crate::specs::Tests::attack_playing))]
pub fn attack_playing(s: Session, w: Window) -> bool
    ensures { result ≡ attack_playing w s }
{
    s.records().iter().any(|r| r.in_window(w))
}

// ---- what a session must not be like, each cause by itself

// More than sixteen live voices.
pub fn over_live(s: &Session) -> bool
    ensures { result ≡ over_live s.now }
{
    16 < s.voices.count
}

fn stands_twice(ids: &[u64]) -> bool
    ensures { result ≡ twice ids.now }
{
    match ids {
        [] => false,
        [id, rest @ ..] => rest.contains(id) || stands_twice(rest),
    }
}

// Two live voices with one id.
#[tactic(auto, unfolding(crate::specs::Tests::twice_live))]
pub fn twice_live(s: &Session) -> bool
    ensures { result ≡ twice_live s.now }
{
    stands_twice(s.voices.as_slice())
}

// Whether the record's voice is not among the ids.
fn is_stray(r: PlayerRecord, ids: &[u64]) -> bool
    ensures { result ≡ not (elem r.voice ids.now) }
{
    !ids.contains(&r.voice)
}

// A record of a voice not live.
#[tactic(auto, unfolding(crate::specs::Tests::stray_record))]
pub fn stray_record(s: &Session) -> bool
    ensures { result ≡ stray_record s.now }
{
    let ids = s.voices.as_slice();
    s.records().iter().any(|r| is_stray(*r, ids))
}

// More than 512 records.
pub fn over_records(s: &Session) -> bool
    ensures { result ≡ over_records s.now }
{
    512 < s.count
}

// How many records the voice has.
fn count_voice(records: &[PlayerRecord], voice: u64) -> usize
    ensures { result ≡ count_by (of_voice voice) records.now }
{
    records.iter().filter(|r| r.voice == voice).count()
}

// More than 32 records of one live voice.
#[tactic(auto, unfolding(crate::specs::Tests::over_voice))]
pub fn over_voice(s: &Session) -> bool
    ensures { result ≡ over_voice s.now }
{
    // a list of 32 cannot have more of one voice
    if s.count <= 32 {
        return false;
    }
    let records = s.records();
    s.voices
        .as_slice()
        .iter()
        .any(|id| 32 < count_voice(records, *id))
}

// More than sixteen held gates.
pub fn over_held(s: &Session) -> bool
    ensures { result ≡ over_held s.now }
{
    16 < s.held
}

// A record whose region is outside a program of so many regions.
#[tactic(auto, unfolding(crate::specs::Tests::region_outside))]
pub fn region_outside(s: &Session, regions: u32) -> bool
    ensures { result ≡ region_outside regions s.now }
{
    s.records().iter().any(|r| regions <= r.region)
}

// Whether the voice's records are its players' slots, in order.
pub fn slots_in_order(s: &Session, voice: u64, ks: Slots) -> bool
    ensures { result ≡ slots_in_order voice (slot_list ks) s.now }
{
    // `Iterator::eq` of the two leaves open what it says of the lists
    let slots = ks.as_slice();
    let mut j = 0;
    for r in s.records() {
        if r.voice == voice {
            if slots.len() <= j {
                return false;
            }
            if slots[j] != r.slot {
                return false;
            }
            j += 1;
        }
    }
    j == slots.len()
}
