// The log of a set: of its deltas by key the first that is ready, again and again, beside the old log.
#![tactic(auto)]

pub mod listing;
mod next;
