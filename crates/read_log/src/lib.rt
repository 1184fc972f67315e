// The log reader: a struct with the lent image and the offset of the next message; whole readings.
#![tactic(auto)]

pub mod finding;
pub mod reader;
