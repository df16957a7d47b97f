// What performs a block lister's script: from a buffer over standard input to standard output.
#![tactic(auto)]

pub mod perform;
