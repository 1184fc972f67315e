// What the listing program prints: a message's line, the last line.
#![tactic(auto)]

pub mod limits;
pub mod printing;
