// A program: its regions, samples and sinc table as lent numbers, their binding and their lookup.
// docs/PROGRAM.md has the layout of the words.
#![tactic(auto)]

pub mod bind;
pub mod check;
pub mod curve;
pub mod lookup;
pub mod region;
pub mod sample;
