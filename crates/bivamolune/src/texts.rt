// Sequences as text, for C. Each call answers code + 256 × length.
ghost use Rattle.bivamolune_packing.specs.TextAnswers.{ReadsSequences, WritesSequences};

use bivamolune_packing::lengths::pack_length;
use text_reading::read_sequences;
use text_writing::write_sequences;

// Reads the sequences of a text.
pub fn bivamolune_read_sequences(text: &[u8], sequences: &mut [u8]) -> u32
    ensures { ReadsSequences text.now sequences.old result sequences.new }
{
    pack_length(read_sequences(text, sequences))
}

// Writes the text of sequences.
pub fn bivamolune_write_sequences(sequences: &[u8], text: &mut [u8]) -> u32
    ensures { WritesSequences sequences.now text.old result text.new }
{
    pack_length(write_sequences(sequences, text))
}
