// Answers as one number for C, and what the header takes out of it.
#![tactic(auto)]

pub mod codes;
pub mod deliveries;
pub mod lengths;
pub mod reads;

pub use lengths::LENGTH_UNIT;
