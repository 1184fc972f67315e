// The listing of an input: what is read of it, delivered to an image of no deltas.
#![tactic(auto)]

pub mod limits;
pub mod walking;
