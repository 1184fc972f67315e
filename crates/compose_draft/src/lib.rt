// A draft of a new delta: its sequence, group and block, within their limits.
#![tactic(auto)]

pub mod drafting;
