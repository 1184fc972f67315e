// Texts and numbers in decimal, put one behind the other: what the programs print.
#![tactic(auto)]

pub mod digits;
pub mod limits;
pub mod text;
