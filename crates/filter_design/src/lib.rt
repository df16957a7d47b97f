// A region's filters and equaliser bands, designed for one note: coefficients and slots.
#![tactic(auto)]

pub mod cookbook;
pub mod slots;
