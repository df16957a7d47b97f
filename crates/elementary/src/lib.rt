// The seven float functions that vary by platform.
#![tactic(auto)]

pub mod hyperbolic;
pub mod log;
mod polynomial;
pub mod power;
pub mod trig;
