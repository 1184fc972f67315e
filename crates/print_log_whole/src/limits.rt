// How much the program prints at most: a line for each delta that an image holds.
use layout::CAPACITY;
use print_log_line::limits::LINE_ROOM;

pub const LOG_ROOM: usize = CAPACITY * LINE_ROOM;
