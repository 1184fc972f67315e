// A delta on the wire: its layout, which is the check of code 3, and its header.
#![tactic(auto)]

pub mod checks;
pub mod header;
