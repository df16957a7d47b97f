// What the program of refusals stands on: states of session and voice, the calls on them with what they answer, and whether two voices
// are the same bit for bit. A library, so that no check takes all of its memory at once.
#![tactic(auto)]

pub mod calls;
pub mod lend;
pub mod places;
pub mod same;
pub mod state;
