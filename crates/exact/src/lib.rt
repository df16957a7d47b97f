// Exact numbers: what the Rust does with floats and integers outside its seven float functions, each as one equation
// over the IEEE 754 values of the logic, for every input.

#![tactic(auto)]

pub mod cast;
pub mod format;
pub mod integral;
pub mod order;
pub mod pair;
pub mod random;
pub mod root;
