// What `print_log` prints of a message: place, offset, length, sequence, and its commands.
#![tactic(auto)]

pub mod limits;
pub mod line;
