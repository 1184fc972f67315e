// The bytes of a right text's sequences.
ghost use Rattle.std.specs.Prelude.{◌≡◌, take, drop};
ghost use Rattle.std.proofs.Math.Seq.{paste};
ghost use Rattle.model.specs.Layout.{sequence_size, characters_size};
ghost use Rattle.model.specs.Text.{bytes_in};
ghost use Rattle.text_reading.specs.Parts.{PartReadable, TextReadable, TextRead};

use layout::{SEQUENCE_SIZE, TEXT_PART_SIZE};
use text_digits::{CHARACTER_COUNT, digit, digits};

// The bytes of the sequence whose characters start at a place.
fn read_part(table: &[u8; CHARACTER_COUNT], text: &[u8], from: usize, bytes: &mut [u8], at: usize)
    requires { PartReadable table.now text.now from bytes.old at }
    ensures { bytes.new ≡ paste bytes.old at (bytes_in (take characters_size (drop from text.now))) sequence_size }
{
    for k in 0..SEQUENCE_SIZE {
        let high = digit(table, text[from + 2 * k]);
        let low = digit(table, text[from + 2 * k + 1]);
        bytes[at + k] = 16 * high + low;
    }
}

// The bytes of all sequences, end to end, and how many they are.
pub fn read_text(text: &[u8], bytes: &mut [u8]) -> usize
    requires { TextReadable text.now bytes.old }
    ensures { TextRead text.now bytes.old result bytes.new }
{
    let count = (text.len() + 1) / TEXT_PART_SIZE;
    let table = digits();
    for k in 0..count {
        read_part(&table, text, TEXT_PART_SIZE * k, bytes, SEQUENCE_SIZE * k);
    }
    SEQUENCE_SIZE * count
}
