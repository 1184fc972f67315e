// Whether what an image's log starts from is right: its floors, its base values, its greatest purged block and group.
#![tactic(auto)]

pub mod floors;
pub mod origin;
pub mod purged;
pub mod zeros;
