// What performs a desk lister's script: from a buffer over standard input to standard output.
#![tactic(auto)]

pub mod perform;
mod setup;
