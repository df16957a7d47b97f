// What an off mark and a gate's edge do to the session and to a voice: the Rust's `apply_off`, `reap`, `note_on` and `note_off`.
#![tactic(auto)]

pub mod gate;
pub mod off;
