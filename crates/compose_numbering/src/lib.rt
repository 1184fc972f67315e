// A new delta's number on its line, its group and its block.
#![tactic(auto)]

pub mod block;
pub mod group;
pub mod number;
