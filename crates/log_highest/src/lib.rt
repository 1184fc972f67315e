// The highest group and the highest effective block at places of a log.
#![tactic(auto)]

pub mod block;
pub mod group;
