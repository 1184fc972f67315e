// The text of sequences, put down one sequence after the other.
ghost use Rattle.std.specs.Prelude.{◌≡◌, take, drop};
ghost use Rattle.std.proofs.Math.Seq.{paste};
ghost use Rattle.model.specs.Layout.{sequence_size, characters_size};
ghost use Rattle.model.specs.Text.{characters_of};
ghost use Rattle.text_writing.specs.Parts.{PartWritable, TextWritable, TextPut};

use layout::{CHARACTERS_SIZE, SEQUENCE_SIZE, TEXT_PART_SIZE};
use text_checks::forms::count_sequences;
use text_digits::{COMMA, character};

// The characters of the sequence that starts at a place.
pub fn put_characters(text: &mut [u8], at: usize, sequences: &[u8], from: usize)
    requires { PartWritable text.old at sequences.now from }
    ensures { text.new ≡ paste text.old at (characters_of (take sequence_size (drop from sequences.now))) characters_size }
{
    for k in 0..SEQUENCE_SIZE {
        let value = sequences[from + k];
        text[at + 2 * k] = character(value / 16);
        text[at + 2 * k + 1] = character(value % 16);
    }
}

// The characters of all sequences, with commas between them, and how many they are.
pub fn put_text(text: &mut [u8], sequences: &[u8]) -> usize
    requires { TextWritable text.old sequences.now }
    ensures { TextPut sequences.now text.old result text.new }
{
    let last = count_sequences(sequences) - 1;
    for k in 0..last {
        put_characters(text, TEXT_PART_SIZE * k, sequences, SEQUENCE_SIZE * k);
        text[TEXT_PART_SIZE * k + CHARACTERS_SIZE] = COMMA;
    }
    put_characters(text, TEXT_PART_SIZE * last, sequences, SEQUENCE_SIZE * last);
    TEXT_PART_SIZE * last + CHARACTERS_SIZE
}
