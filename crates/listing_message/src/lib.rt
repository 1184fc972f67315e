// One message of the listing program's input: delivered, and its line written.
#![tactic(auto)]

pub mod delivering;
