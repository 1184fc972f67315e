// What an operation makes of a value, and values as words.
#![tactic(auto)]

pub mod integers;
pub mod operations;
