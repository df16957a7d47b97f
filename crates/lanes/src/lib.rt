// The windowed sinc of four frames side by side: the same taps in the same order, and the same bits as one read after the other.
#![tactic(auto)]

pub mod four;
pub mod places;
