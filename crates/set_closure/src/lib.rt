// The closure: whichever delta is ready is placed until none is, with its effective block. What is placed is executable.
#![tactic(auto)]

pub mod closing;
pub mod passing;
pub mod placing;
