// What a block lister's script has beside the calls themselves: the program, the inputs, and what is written after a step. Below the
// voice, so that no check takes 4 GiB.
#![tactic(auto)]

pub mod build;
pub mod inputs;
pub mod show;
