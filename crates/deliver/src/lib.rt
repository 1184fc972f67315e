// The call `deliver`.
#![tactic(auto)]

pub mod answer;
pub mod delivery;
