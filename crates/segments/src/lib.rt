// A player's frames: one frame of its sample, sinc frames read ahead, stored frames many at once, and a segment between two events.
#![tactic(auto)]

pub mod ahead;
pub mod plain;
pub mod segment;
pub mod source;
