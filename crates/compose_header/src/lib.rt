// The numbers of a message's header, written: its counts, its offsets, its fields.
#![tactic(auto)]

ghost use Rattle.std.specs.Prelude.{◌≡◌, [], ◌∷◌, ◌+◌, ◌<◌, ◌≤◌, length};
ghost use Rattle.model.specs.Layout.{kind_at, length_at, group_at, header_size};
ghost use Rattle.image_header.specs.Pieces.{pasted};
ghost use Rattle.compose_header.specs.Numbers.{FewParts, counts_bytes, offsets_bytes, order_bytes};

use buffer_writes::{put_u16, put_u32};
use layout::{
    BLOCK_AT, COMMAND_COUNT_AT, COMMAND_SIZE, COMMANDS_OFFSET_AT, DEPENDENCIES_OFFSET_AT,
    DEPENDENCY_COUNT_AT, FIRST_ZEROS_AT, GROUP_AT, HEADER_SIZE, KIND_AT, LAST_ZEROS_AT, LENGTH_AT,
    PRIORITY_AT, PRIORITY_FLAG_AT, SEQUENCE_SIZE,
};

// Writes a byte.
fn put_byte(s: &mut [u8], at: usize, v: u32)
    requires { (at < length s.old) × (v < 256) }
    ensures { s.new ≡ pasted s.old at (v ∷ []) }
{
    s[at] = v as u8;
}

// Writes kind, byte 1, and the counts.
pub fn put_counts(message: &mut [u8], flag: u32, dependencies: usize, commands: usize)
    requires { (header_size ≤ length message.old) × (flag < 256) × FewParts dependencies commands }
    ensures { message.new ≡ pasted message.old kind_at (counts_bytes flag dependencies commands) }
{
    put_byte(message, KIND_AT, 1);
    put_byte(message, PRIORITY_FLAG_AT, flag);
    put_byte(message, DEPENDENCY_COUNT_AT, dependencies as u32);
    put_byte(message, COMMAND_COUNT_AT, commands as u32);
}

// Writes the length, the offsets of dependencies and of commands, and zeros.
pub fn put_offsets(message: &mut [u8], dependencies: usize, commands: usize)
    requires { (header_size ≤ length message.old) × FewParts dependencies commands }
    ensures { message.new ≡ pasted message.old length_at (offsets_bytes dependencies commands) }
{
    let start = HEADER_SIZE + SEQUENCE_SIZE * dependencies;
    let total = start + COMMAND_SIZE * commands;
    put_u16(message, LENGTH_AT, total as u32);
    put_u16(message, DEPENDENCIES_OFFSET_AT, HEADER_SIZE as u32);
    put_u16(message, COMMANDS_OFFSET_AT, start as u32);
    put_u16(message, FIRST_ZEROS_AT, 0);
}

// Writes group, block and priority, and zeros.
pub fn put_fields(message: &mut [u8], group: u32, block: u32, priority: u32)
    requires { header_size ≤ length message.old }
    ensures { message.new ≡ pasted message.old group_at (order_bytes group block priority) }
{
    put_u32(message, GROUP_AT, group);
    put_u32(message, BLOCK_AT, block);
    put_u32(message, PRIORITY_AT, priority);
    put_u32(message, LAST_ZEROS_AT, 0);
}
