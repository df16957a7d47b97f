// What the session hears of frames between two events.
ghost use Rattle.std.specs.Prelude.{◌≡◌};
ghost use Rattle.block.specs.Render.{with_ended};

use session::{Session, Slots, mark_ended};

// The records in these slots carry the mark of ended data.
pub fn end_records(s: Session, voice: u64, ended: Slots) -> Session
    ensures { result ≡ with_ended voice ended s }
{
    if ended.count == 0 {
        return s;
    }
    mark_ended(s, voice, ended)
}
