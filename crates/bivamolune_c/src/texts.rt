// Sequences as text, for C. Each call answers code + 256 × length.
ghost use Rattle.bivamolune_packing.specs.TextAnswers.{ReadsSequences, WritesSequences};

// Reads the sequences of a text.
#[unsafe(no_mangle)]
pub extern "C" fn bivamolune_read_sequences(text: &[u8], sequences: &mut [u8]) -> u32
    ensures { ReadsSequences text.now sequences.old result sequences.new }
{
    bivamolune::texts::bivamolune_read_sequences(text, sequences)
}

// Writes the text of sequences.
#[unsafe(no_mangle)]
pub extern "C" fn bivamolune_write_sequences(sequences: &[u8], text: &mut [u8]) -> u32
    ensures { WritesSequences sequences.now text.old result text.new }
{
    bivamolune::texts::bivamolune_write_sequences(sequences, text)
}
