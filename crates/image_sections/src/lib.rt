// The sections of an image behind its header: the values as the log leaves them, base values and floors, and the messages.
#![tactic(auto)]

pub mod held;
pub mod messages;
pub mod origin;
pub mod placed;
pub mod running;
