// The messages of a log one after the other, each as its line. The reader keeps the offset, `log_message` gives the message.
#![tactic(auto)]

ghost use Rattle.std.specs.Prelude.{◌≡◌, ◌≤◌, eqb, length};
ghost use Rattle.model.specs.Codes.{lowest_code, read_conditions};
ghost use Rattle.model.specs.Calls.{log_message_code};
ghost use Rattle.program_decimal.specs.Puts.{Puts};
ghost use Rattle.print_log_walk.specs.Printing.{log_room, lines_from};

use print_log_line::line::put_line;
use read_calls::log_message::{log_message, log_message_code};
use read_offsets::{move_on, start_offset};

// Whether the log has a message at a place.
fn is_logged(image: &[u8], place: usize) -> bool
    ensures { result ≡ eqb (log_message_code image.now place) 0 }
{
    log_message_code(image, place).is_ok()
}

// Writes the line of each message of an image's log, and answers the place behind the last.
pub fn put_lines(image: &[u8], out: &mut [u8]) -> usize
    requires { (lowest_code (read_conditions image.now) ≡ 0) × (log_room ≤ length out.old) }
    ensures { Puts out.old 0 log_room (lines_from image.now 0) result out.new }
{
    let mut place = 0;
    let mut offset = start_offset(image);
    let mut at = 0;
    // A while: the log ends where `is_logged` says so, at no number that is known before.
    while is_logged(image, place) {
        let message = log_message(image, place);
        at = put_line(out, at, place, offset, message);
        offset = move_on(image, offset);
        place += 1;
    }
    at
}
