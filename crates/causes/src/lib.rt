// 01's causes to turn a call back, and what a block asks of session and voice before it plays.
#![tactic(auto)]

pub mod calm;
pub mod check;
pub mod quiet;
pub mod tally;

// How long each lent part of a block is; an input's length is none where it is not connected.
#[derive(Clone, Copy)]
pub struct Lengths {
    pub freq: Option<usize>,
    pub gate: Option<usize>,
    pub vel: Option<usize>,
    pub amp: Option<usize>,
    pub seed: Option<usize>,
    pub bend: Option<usize>,
    pub quality: Option<usize>,
    pub left: usize,
    pub right: usize,
}
