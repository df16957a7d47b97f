// What a voice asks of the session's list: the causes under 8 that the list shows, with a count for each live voice, and whether an off
// time waits.
ghost use Rattle.std.specs.Prelude.{◌≡◌};
ghost use Rattle.causes.specs.Others.{IsPlace, found_in, amiss, others_fit, off_waits};

use session::{PlayerRecord, Session, used};

// The first place at which the id stands.
fn place_of(ids: &[u64], id: u64) -> Option<usize>
    ensures { result ≡ found_in id ids.now }
{
    ids.iter().position(|x| *x == id)
}

// The same, where `last` is the place of some id, or none: a voice's records often stand together, and then need no search.
fn place_after(ids: &[u64], last: Option<usize>, id: u64) -> Option<usize>
    requires { IsPlace ids.now last }
    ensures { (result ≡ found_in id ids.now) × IsPlace ids.now result }
{
    match last {
        Some(k) if ids[k] == id => last,
        _ => place_of(ids, id),
    }
}

// Whether the record's region is outside so many, where a number is given, or the record is this voice's, where one is.
fn is_amiss(r: PlayerRecord, regions: Option<u32>, own: Option<u64>) -> bool
    ensures { result ≡ amiss regions own r }
{
    regions.is_some_and(|n| n <= r.region) || own.is_some_and(|id| r.voice == id)
}

// Every record is a live voice's, none of them has more than 32, and none is amiss: one walk, with a count for each live voice. The counts
// stand apart from the ids, which are read where the session has them: an array of pairs would copy all sixteen for each block.
pub fn others_fit(s: &Session, regions: Option<u32>, own: Option<u64>) -> bool
    ensures { result ≡ others_fit regions own s.now }
{
    let ids = &s.voices.ids[..used::<16>(s.voices.count)];
    let mut counts = [0u32; 16];
    let mut last = None;
    for r in &s.players[..used::<512>(s.count)] {
        if is_amiss(*r, regions, own) {
            return false;
        }
        last = place_after(ids, last, r.voice);
        let Some(p) = last else {
            return false;
        };
        if 32 <= counts[p] {
            return false;
        }
        counts[p] += 1;
    }
    true
}

// Whether an off time waits on one of the voice's records.
pub(super) fn off_waits(s: &Session, voice: u64) -> bool
    ensures { result ≡ off_waits voice s.now }
{
    s.players[..used::<512>(s.count)]
        .iter()
        .any(|r| r.is_waiting(voice))
}
