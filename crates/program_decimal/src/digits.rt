// A number in decimal.
ghost use Rattle.std.specs.Prelude.{◌≡◌, ◌++◌, ◌+◌, ◌≤◌, length, drop};
ghost use Rattle.program_decimal.specs.Puts.{Puts, digits_room, numeral};

use crate::limits::{DIGITS, ZERO};
use crate::text::put_text;

// Writes the digits of a number to the end of a text, from the last to the first, and answers where the first stands.
#[tactic(auto, using(crate::proofs::Spelling::spelling))]
fn spell(text: &mut [u8], x: usize) -> usize
    requires { length text.old ≡ digits_room }
    ensures { (result ≤ digits_room) × (drop result text.new ≡ numeral x) }
{
    let mut rest = x;
    for first in (0..DIGITS).rev() {
        text[first] = (ZERO + rest % 10) as u8;
        if rest < 10 {
            return first;
        }
        rest /= 10;
    }
    0
}

// Writes a number from a place on, and answers the place behind it.
pub fn put_decimal(out: &mut [u8], at: usize, x: usize) -> usize
    requires { at + digits_room ≤ length out.old }
    ensures { Puts out.old at digits_room (numeral x) result out.new }
{
    let mut text = [0u8; DIGITS];
    let first = spell(&mut text, x);
    put_text(out, at, &text[first..])
}

// Writes a text and a number behind it from a place on, and answers the place behind both.
pub fn put_after(out: &mut [u8], at: usize, text: &[u8], x: usize) -> usize
    requires { at + length text.now + digits_room ≤ length out.old }
    ensures { Puts out.old at (length text.now + digits_room) (text.now ++ numeral x) result out.new }
{
    let next = put_text(out, at, text);
    put_decimal(out, next, x)
}
