// The line of a message of the log.
ghost use Rattle.std.specs.Prelude.{◌+◌, ◌≤◌, T, length};
ghost use Rattle.model.specs.Layout.{header_size};
ghost use Rattle.model.specs.Message.{layout_right};
ghost use Rattle.model.specs.Program.{log_line};
ghost use Rattle.program_decimal.specs.Puts.{Puts};
ghost use Rattle.print_log_line.specs.Rooms.{sequence_room, head_room, line_room};
ghost use Rattle.print_log_line.specs.Lines.{sequence_field, line_head};

use buffer_reads::byte;
use layout::{CHARACTERS_SIZE, DEPENDENCY_COUNT_AT, HEADER_SIZE, SEQUENCE_AT, SEQUENCE_SIZE};
use print_log_commands::put_commands;
use program_decimal::digits::{put_after, put_decimal};
use program_decimal::text::put_text;
use text_writing::parts::put_characters;

// Writes a space and the characters of a message's sequence.
fn put_sequence(out: &mut [u8], at: usize, message: &[u8]) -> usize
    requires { (at + sequence_room ≤ length out.old) × (header_size ≤ length message.now) }
    ensures { Puts out.old at sequence_room (sequence_field message.now) result out.new }
{
    let next = put_text(out, at, b" ");
    put_characters(out, next, message, SEQUENCE_AT);
    next + CHARACTERS_SIZE
}

// Writes what stands before the commands: place, offset, length and sequence.
fn put_head(out: &mut [u8], at: usize, place: usize, offset: usize, message: &[u8]) -> usize
    requires { (at + head_room ≤ length out.old) × (header_size ≤ length message.now) }
    ensures { Puts out.old at head_room (line_head place offset message.now) result out.new }
{
    let placed = put_decimal(out, at, place);
    let located = put_after(out, placed, b" ", offset);
    let sized = put_after(out, located, b" ", message.len());
    put_sequence(out, sized, message)
}

// Writes the line of a message that lies at an offset, and answers the place behind it.
pub fn put_line(out: &mut [u8], at: usize, place: usize, offset: usize, message: &[u8]) -> usize
    requires { (at + line_room ≤ length out.old) × T (layout_right message.now) }
    ensures { Puts out.old at line_room (log_line place offset message.now) result out.new }
{
    let start = HEADER_SIZE + SEQUENCE_SIZE * byte(message, DEPENDENCY_COUNT_AT) as usize;
    let headed = put_head(out, at, place, offset, message);
    let commanded = put_commands(out, headed, &message[start..]);
    put_text(out, commanded, b"\n")
}
