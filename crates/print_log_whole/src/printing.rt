// The whole output: the lines of the log, or the code of a refusal.
ghost use Rattle.std.specs.Prelude.{[], ◌∷◌, ◌++◌, ◌+◌, ◌≤◌, length};
ghost use Rattle.model.specs.Program.{printed_log};
ghost use Rattle.program_decimal.specs.Puts.{Puts, digits_room, numeral};
ghost use Rattle.program_decimal.specs.Front.{Prints};

use crate::limits::LOG_ROOM;
use print_log_walk::put_lines;
use program_decimal::digits::put_decimal;
use program_decimal::text::put_text;
use read_calls::log_message::log_message_code;

// Log message's code of place 0, where the log is empty.
const EMPTY_LOG: usize = 12;

// Writes the code of a refusal as a line, and answers the place behind it.
fn put_code(out: &mut [u8], code: usize) -> usize
    requires { digits_room + 1 ≤ length out.old }
    ensures { Puts out.old 0 (digits_room + 1) (numeral code ++ 10 ∷ []) result out.new }
{
    let next = put_decimal(out, 0, code);
    put_text(out, next, b"\n")
}

// What is printed for an input, at the front of a buffer that is proved to hold it; answers how long it is.
pub fn put_log(input: &[u8], out: &mut [u8; LOG_ROOM]) -> usize
    ensures { Prints (printed_log input.now) out.old result out.new }
{
    let Err(why) = log_message_code(input, 0) else {
        return put_lines(input, out);
    };
    let code = why.code() as usize;
    if code == EMPTY_LOG {
        return 0;
    }
    put_code(out, code)
}
