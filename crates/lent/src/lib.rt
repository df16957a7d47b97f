// The two places that also take their state lent: the choke walk over a lent slice of records, and the step of a lent
// envelope. Both are thin: the walk is session's own, and what is done to an envelope is the by-value call.
#![tactic(auto)]

ghost use Rattle.std.specs.Prelude.{◌≡◌};
ghost use Rattle.session.specs.Rules.{choke};
ghost use Rattle.envelope.specs.Envelope.{env_next};

use envelope::Env;
use session::{PlayerRecord, Start};

// Marks each record that the start chokes.
pub fn choke_walk(records: &mut [PlayerRecord], st: Start)
    ensures { records.new ≡ choke st records.old }
{
    session::choke(records, st);
}

// Steps the envelope by a frame: the frame's value.
pub fn step(env: &mut Env) -> f32
    ensures { record { value = result; env = env.new } ≡ env_next env.old }
{
    let s = env.next();
    *env = s.env;
    s.value
}
