// The header of a message, as a value.
ghost use Rattle.std.specs.Prelude.{◌≡◌, ◌≤◌, length};
ghost use Rattle.model.specs.Layout.{header_size};
ghost use Rattle.message_header.specs.Header.{priority_in, header_of};

use buffer_reads::{byte, get_u32};
use layout::{
    BLOCK_AT, COMMAND_COUNT_AT, DEPENDENCY_COUNT_AT, GROUP_AT, PRIORITY_AT, PRIORITY_FLAG_AT,
    SEQUENCE_AT,
};
use message_sequence::{Sequence, read_sequence};

// A block with a priority.
#[derive(Clone, Copy)]
pub struct Priority {
    pub block: u32,
    pub priority: u32,
}

// A message's header: what stands in its first 40 bytes and is not settled by the layout.
#[derive(Clone, Copy)]
pub struct Header {
    pub sequence: Sequence,
    pub group: u32,
    pub dependencies: usize,
    pub commands: usize,
    pub priority: Option<Priority>,
}

// Block and priority, where byte 1 says that they are given.
fn read_priority(m: &[u8]) -> Option<Priority>
    requires { header_size ≤ length m.now }
    ensures { result ≡ priority_in m.now }
{
    if byte(m, PRIORITY_FLAG_AT) != 1 {
        return None;
    }
    let block = get_u32(m, BLOCK_AT);
    let priority = get_u32(m, PRIORITY_AT);
    Some(Priority { block, priority })
}

// The header of a message that has one. The priority, which branches, is read before the fields that can be read together.
pub fn read_header(m: &[u8]) -> Header
    requires { header_size ≤ length m.now }
    ensures { result ≡ header_of m.now }
{
    let priority = read_priority(m);
    let sequence = read_sequence(m, SEQUENCE_AT);
    let group = get_u32(m, GROUP_AT);
    let dependencies = byte(m, DEPENDENCY_COUNT_AT) as usize;
    let commands = byte(m, COMMAND_COUNT_AT) as usize;
    Header {
        sequence,
        group,
        dependencies,
        commands,
        priority,
    }
}
