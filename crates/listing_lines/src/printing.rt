// The lines: one for each message, and the last.
ghost use Rattle.std.specs.Prelude.{◌≡◌, ◌++◌, ◌+◌, ◌≤◌, length};
ghost use Rattle.model.specs.Layout.{image_size};
ghost use Rattle.model.specs.Program.{printed_line, last_line};
ghost use Rattle.program_decimal.specs.Puts.{Puts};
ghost use Rattle.listing_lines.specs.Rooms.{line_room, last_room};

use buffer_reads::get_u16;
use layout::{HELD_COUNT_AT, LOG_COUNT_AT};
use program_decimal::digits::{put_after, put_decimal};
use program_decimal::text::put_text;

// Writes the line of a message from a place on, and answers the place behind it.
pub fn put_line(
    out: &mut [u8],
    at: usize,
    number: usize,
    code: usize,
    undos: usize,
    executions: usize,
) -> usize
    requires { at + line_room ≤ length out.old }
    ensures { Puts out.old at line_room (printed_line number code undos executions) result out.new }
{
    let numbered = put_decimal(out, at, number);
    let coded = put_after(out, numbered, b" ", code);
    let undone = put_after(out, coded, b" ", undos);
    let executed = put_after(out, undone, b" ", executions);
    put_text(out, executed, b"\n")
}

// Writes the last line, of an image, from a place on, and answers the place behind it.
pub fn put_last(out: &mut [u8], at: usize, image: &[u8]) -> usize
    requires { (at + last_room ≤ length out.old) × (length image.now ≡ image_size) }
    ensures { Puts out.old at last_room (last_line image.now) result out.new }
{
    let logged = put_after(out, at, b"log ", get_u16(image, LOG_COUNT_AT) as usize);
    let held = put_after(
        out,
        logged,
        b" held ",
        get_u16(image, HELD_COUNT_AT) as usize,
    );
    put_text(out, held, b"\n")
}

// Writes the line of a wrong cut and the last line.
pub fn put_wrong_cut(out: &mut [u8], at: usize, number: usize, image: &[u8]) -> usize
    requires { (at + (line_room + last_room) ≤ length out.old) × (length image.now ≡ image_size) }
    ensures { Puts out.old at (line_room + last_room) (printed_line number 3 0 0 ++ last_line image.now) result out.new }
{
    let next = put_line(out, at, number, 3, 0, 0);
    put_last(out, next, image)
}
