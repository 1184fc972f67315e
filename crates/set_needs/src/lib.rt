// What each delta of a table needs: first as sequences, then as rows of indices of the table.
#![tactic(auto)]

pub mod rows;
pub mod sequences;
pub mod wanted;
