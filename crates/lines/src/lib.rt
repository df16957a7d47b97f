// What the lines of the listers' texts mean, on slices of bytes, and the numbers that the listers print.
#![tactic(auto)]

pub mod block;
pub mod desk;
pub mod field;
pub mod print;
pub mod rows;
