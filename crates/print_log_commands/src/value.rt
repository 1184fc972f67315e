// A command's value in decimal.
ghost use Rattle.std.specs.Prelude.{◌+◌, ◌≤◌, length};
ghost use Rattle.model.specs.Bytes.{integer};
ghost use Rattle.model.specs.Program.{printed_value};
ghost use Rattle.program_decimal.specs.Puts.{Puts};
ghost use Rattle.print_log_commands.specs.Rooms.{value_room};

use program_decimal::digits::{put_after, put_decimal};

// Writes the value of a word from a place on, and answers the place behind it. A word is two's complement: from 2147483648 on it is
// negative, and `-` stands before its digits.
#[tactic(auto, using(crate::specs::ValueLaws::value_positive, crate::specs::ValueLaws::value_negative))]
pub fn put_value(out: &mut [u8], at: usize, word: u32) -> usize
    requires { at + value_room ≤ length out.old }
    ensures { Puts out.old at value_room (printed_value (integer word)) result out.new }
{
    if word < 2147483648 {
        return put_decimal(out, at, word as usize);
    }
    put_after(out, at, b"-", 4294967296 - word as usize)
}
