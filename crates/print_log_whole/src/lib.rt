// What `print_log` prints of an input: the lines of all messages of the log, or the code of a refusal.
#![tactic(auto)]

pub mod limits;
pub mod printing;
