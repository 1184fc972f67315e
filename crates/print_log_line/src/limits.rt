// The most bytes of what is printed of a message.
use layout::{CHARACTERS_SIZE, MOST_COMMANDS};
use program_decimal::limits::DIGITS;

// a value: its sign and its digits
pub const VALUE_ROOM: usize = 1 + DIGITS;

// a command: tag and value, a space before each
pub const COMMAND_ROOM: usize = 1 + DIGITS + 1 + VALUE_ROOM;

// place, offset, length and sequence, with the spaces between them
pub const HEAD_ROOM: usize = 3 * (DIGITS + 1) + CHARACTERS_SIZE;

// the line of a message: these, its commands, the line feed
pub const LINE_ROOM: usize = HEAD_ROOM + MOST_COMMANDS * COMMAND_ROOM + 1;
