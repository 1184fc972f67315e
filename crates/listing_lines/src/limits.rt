// The most bytes of a line and of the last line.
use program_decimal::limits::DIGITS;

// the line of a message: four numbers, each with the byte behind it
pub const LINE_ROOM: usize = 4 * (DIGITS + 1);

// the last line: the words with the spaces, two numbers, the end of the line
pub const LAST_ROOM: usize = 11 + 2 * DIGITS;
