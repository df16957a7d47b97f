// What the listers share: standard input line by line, the program that is read from it, and the text that is written.
#![tactic(auto)]

pub mod feed;
pub mod script;
pub mod show;
pub mod store;
pub mod text;
