// The calls that only read an image: log message, its code, and setpoint.
#![tactic(auto)]

pub mod answer;
pub mod locating;
pub mod log_message;
pub mod setpoint;
