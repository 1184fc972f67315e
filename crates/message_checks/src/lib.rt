// The check of code 6, and a message checked by 3 to 6 in order.
#![tactic(auto)]

pub mod checking;
pub mod content;
