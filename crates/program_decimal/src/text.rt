// Bytes put behind those that are printed already.
ghost use Rattle.std.specs.Prelude.{◌+◌, ◌≤◌, length};
ghost use Rattle.program_decimal.specs.Puts.{Puts};

use buffer_writes::copy_at;

// Writes a text from a place on, and answers the place behind it.
pub fn put_text(out: &mut [u8], at: usize, text: &[u8]) -> usize
    requires { at + length text.now ≤ length out.old }
    ensures { Puts out.old at (length text.now) text.now result out.new }
{
    copy_at(out, at, text, text.len());
    at + text.len()
}
