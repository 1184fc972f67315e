// What `print_log` prints of a message's commands: tag and value, with its sign.
#![tactic(auto)]

pub mod value;

ghost use Rattle.std.specs.Prelude.{◌+◌, ◌*◌, ◌≤◌, length, take, drop};
ghost use Rattle.model.specs.Layout.{command_size, most_commands};
ghost use Rattle.model.specs.Program.{printed_command, printed_commands};
ghost use Rattle.setpoints.specs.Commands.{commands_in};
ghost use Rattle.program_decimal.specs.Puts.{Puts};
ghost use Rattle.print_log_commands.specs.Rooms.{command_room, commands_room};

use crate::value::put_value;
use buffer_reads::{byte, get_u32};
use layout::{COMMAND_SIZE, TAG_AT, VALUE_AT};
use program_decimal::digits::put_after;
use program_decimal::text::put_text;

// Writes tag and value of the command that starts at a place.
fn put_command(out: &mut [u8], at: usize, commands: &[u8], from: usize) -> usize
    requires { (at + command_room ≤ length out.old) × (from + command_size ≤ length commands.now) }
    ensures { Puts out.old at command_room (printed_command (take command_size (drop from commands.now))) result out.new }
{
    let tag = byte(commands, from + TAG_AT) as usize;
    let word = get_u32(commands, from + VALUE_AT);
    let named = put_after(out, at, b" ", tag);
    let spaced = put_text(out, named, b" ");
    put_value(out, spaced, word)
}

// Writes the commands of a slice from first to last, and answers the place behind them. A rest shorter than a command is left out.
pub fn put_commands(out: &mut [u8], at: usize, commands: &[u8]) -> usize
    requires { (at + commands_room ≤ length out.old) × (length commands.now ≤ command_size * most_commands) }
    ensures { Puts out.old at commands_room (printed_commands (commands_in commands.now)) result out.new }
{
    let mut next = at;
    for k in 0..commands.len() / COMMAND_SIZE {
        next = put_command(out, next, commands, COMMAND_SIZE * k);
    }
    next
}
