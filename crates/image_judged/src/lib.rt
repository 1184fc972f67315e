// An image read and judged: its table, its log as places and as offsets, and whether it is an image at all. Every call that is
// handed an image begins here.
#![tactic(auto)]

pub mod judging;
