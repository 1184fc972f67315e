// The offsets, sizes, counts and limits of documents 01 and 02, as constants. They have the names of `Layout` in the definitions.
// Every crate that reads or writes a message, an image, a step or a text takes them from here.
#![tactic(auto)]

// ---- a delta on the wire: the header
pub const KIND_AT: usize = 0;

pub const PRIORITY_FLAG_AT: usize = 1;

pub const DEPENDENCY_COUNT_AT: usize = 2;

pub const COMMAND_COUNT_AT: usize = 3;

pub const LENGTH_AT: usize = 4;

pub const DEPENDENCIES_OFFSET_AT: usize = 6;

pub const COMMANDS_OFFSET_AT: usize = 8;

// bytes 10-11, zero
pub const FIRST_ZEROS_AT: usize = 10;

pub const SEQUENCE_AT: usize = 12;

pub const GROUP_AT: usize = 24;

pub const BLOCK_AT: usize = 28;

pub const PRIORITY_AT: usize = 32;

// bytes 36-39, zero
pub const LAST_ZEROS_AT: usize = 36;

pub const HEADER_SIZE: usize = 40;

pub const SEQUENCE_SIZE: usize = 12;

// a line is the first bytes of a sequence
pub const LINE_SIZE: usize = 10;

// how many numbers a line has, 0000 among them
pub const NUMBERS_OF_LINE: u32 = 65536;

pub const MOST_DEPENDENCIES: usize = 8;

// the most that group, block and priority may be
pub const FIELD_LIMIT: u32 = 2147483647;

// ---- a command
pub const COMMAND_SIZE: usize = 8;

pub const MOST_COMMANDS: usize = 8;

pub const OPERATION_AT: usize = 0;

pub const TAG_AT: usize = 1;

pub const COMMAND_ZEROS_AT: usize = 2;

pub const VALUE_AT: usize = 4;

pub const VALUE_SIZE: usize = 4;

pub const TAG_COUNT: usize = 64;

pub const LOWEST_VALUE: i32 = -1000000;

pub const HIGHEST_VALUE: i32 = 1000000;

// all tags' values
pub const VALUES_SIZE: usize = VALUE_SIZE * TAG_COUNT;

// the two as the words that stand in a command, by two's complement
pub const LOWEST_VALUE_WORD: u32 = (LOWEST_VALUE as i64 + 4294967296) as u32;

pub const HIGHEST_VALUE_WORD: u32 = HIGHEST_VALUE as u32;

// the longest message
pub const LONGEST_MESSAGE: usize = HEADER_SIZE
    + SEQUENCE_SIZE * MOST_DEPENDENCIES
    + COMMAND_SIZE * MOST_COMMANDS;

// ---- the station image
pub const IMAGE_SIZE: usize = 16384;

// an image, and the longest message behind it
pub const POOL_SIZE: usize = IMAGE_SIZE + LONGEST_MESSAGE;

pub const LOG_COUNT_AT: usize = 0;

pub const HELD_COUNT_AT: usize = 2;

// where the offsets of setpoints and messages and the bytes used stand
pub const SETPOINTS_OFFSET_AT: usize = 4;

pub const MESSAGES_OFFSET_AT: usize = 6;

pub const USED_AT: usize = 8;

// how many floors there are; the offsets of floors and of base values
pub const FLOOR_COUNT_AT: usize = 10;

pub const FLOORS_OFFSET_AT: usize = 12;

pub const BASE_OFFSET_AT: usize = 14;

// the greatest purged effective block, the greatest purged group, and the zeros behind them
pub const PURGED_BLOCK_AT: usize = 16;

pub const PURGED_GROUP_AT: usize = 20;

pub const ZEROS_AT: usize = 24;

// past the header: the setpoints, the base values, the floors; where the messages start, `messages_start` of the table says
pub const SETPOINTS_START: usize = 32;

pub const BASE_START: usize = SETPOINTS_START + VALUES_SIZE;

pub const FLOORS_START: usize = BASE_START + VALUES_SIZE;

pub const MOST_FLOORS: usize = 32;

// the most deltas that an image holds
pub const CAPACITY: usize = 64;

// ---- a step: its kind and how many pairs it has, its sequence, its pairs
pub const STEP_SEQUENCE_AT: usize = 4;

pub const PAIRS_AT: usize = 16;

// of a pair: tag and value
pub const PAIR_TAG_SIZE: usize = 4;

pub const PAIR_SIZE: usize = PAIR_TAG_SIZE + VALUE_SIZE;

// of all pairs that a step has room for, one a command
pub const PAIRS_SIZE: usize = PAIR_SIZE * MOST_COMMANDS;

pub const STEP_SIZE: usize = PAIRS_AT + PAIRS_SIZE;

// the most steps of a delivery: 63 undos, since the old log lacks the new delta, and 64 executions
pub const MOST_STEPS: usize = (CAPACITY - 1) + CAPACITY;

// a step buffer, at least
pub const STEP_ROOM: usize = STEP_SIZE * MOST_STEPS;

// ---- sequences as text: one to eight, each of so many characters, joined by commas
pub const MOST_SEQUENCES: usize = 8;

pub const CHARACTERS_SIZE: usize = 2 * SEQUENCE_SIZE;

// a sequence's characters and a comma
pub const TEXT_PART_SIZE: usize = CHARACTERS_SIZE + 1;

// of eight sequences, and of their text, which has no comma behind the last
pub const SEQUENCES_ROOM: usize = SEQUENCE_SIZE * MOST_SEQUENCES;

pub const TEXT_ROOM: usize = TEXT_PART_SIZE * MOST_SEQUENCES - 1;
