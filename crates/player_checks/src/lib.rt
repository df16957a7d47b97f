// What 01's test 8 asks of a voice's players.
#![tactic(auto)]

pub mod check;
