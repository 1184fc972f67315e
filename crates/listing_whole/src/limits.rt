// How much the program reads, and how much it prints at most.
use listing_cut::limits::SHORTEST_CUT;
use listing_lines::limits::{LAST_ROOM, LINE_ROOM};

// any bytes beyond are dropped
pub const INPUT_LIMIT: usize = 60000;

// a line for each shortest cut, one for a wrong cut, and the last line
pub const LISTING_ROOM: usize = (INPUT_LIMIT / SHORTEST_CUT + 1) * LINE_ROOM + LAST_ROOM;
