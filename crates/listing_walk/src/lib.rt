// All messages of an input one after the other, with the image that they are delivered to: their lines, and the last line.
#![tactic(auto)]

ghost use Rattle.std.specs.Prelude.{◌≡◌, ◌≤◌, length};
ghost use Rattle.model.specs.Layout.{image_size};
ghost use Rattle.program_decimal.specs.Puts.{Puts};
ghost use Rattle.listing_walk.specs.Lines.{lines, room_for};

use listing_cut::read_cut;
use listing_lines::printing::{put_last, put_wrong_cut};
use listing_message::delivering::list_message;

// Writes the lines of all messages of an input, delivered to an image, and the last line.
pub fn list_messages(input: &[u8], image: &mut [u8], out: &mut [u8]) -> usize
    requires { (length image.old ≡ image_size) × (room_for (length input.now) ≤ length out.old) }
    ensures { Puts out.old 0 (room_for (length input.now)) (lines 1 image.old input.now) result out.new }
{
    let mut number = 1;
    let mut from = 0;
    let mut at = 0;
    while from < input.len() {
        let cut = read_cut(&input[from..]);
        let Some(size) = cut else {
            return put_wrong_cut(out, at, number, image);
        };
        let end = from + size;
        at = list_message(image, &input[from..end], out, at, number);
        number += 1;
        from = end;
    }
    put_last(out, at, image)
}
