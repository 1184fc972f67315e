// A message written from its parts: header, dependencies, commands.
#![tactic(auto)]

pub mod header;
pub mod sequences;

ghost use Rattle.compose_writing.specs.Writing.{Writable, Writes};

use crate::header::put_message_header;
use crate::sequences::put_sequences;
use buffer_writes::copy_at;
use layout::{HEADER_SIZE, SEQUENCE_SIZE};
use message_header::header::Header;

// Writes a message to the front of a buffer: its header, the sequences at the given places of a table, and the commands.
// Answers its length.
pub fn write_message(
    message: &mut [u8],
    h: Header,
    pool: &[u8],
    starts: &[u16],
    places: &[u8],
    commands: &[u8],
) -> usize
    requires { Writable message.old h pool.now starts.now places.now commands.now }
    ensures { Writes message.old h pool.now starts.now places.now commands.now message.new result }
{
    put_message_header(message, h);
    put_sequences(message, pool, starts, places, HEADER_SIZE);
    let start = HEADER_SIZE + SEQUENCE_SIZE * places.len();
    copy_at(message, start, commands, commands.len());
    start + commands.len()
}
