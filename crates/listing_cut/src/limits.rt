// The lengths of a cut, by the names of `Layout` in the definitions.
pub const SHORTEST_CUT: usize = 48;

pub const LONGEST_CUT: usize = 200;

// the bytes of a message's length
pub const LENGTH_SIZE: usize = 2;
