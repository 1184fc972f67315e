// Code 13: the form of a text, and the size of sequences.
ghost use Rattle.std.specs.Prelude.{◌≡◌, ◌/◌, length};
ghost use Rattle.model.specs.Layout.{sequence_size};
ghost use Rattle.model.specs.Text.{text_right, sequences_right};
ghost use Rattle.refusals.specs.Refusals.{checked};
ghost use Rattle.refusals.specs.declared.Refusal.TheVariants.{WrongForm};

use buffer_sizes::whole_pieces;
use layout::{SEQUENCE_SIZE, SEQUENCES_ROOM, TEXT_PART_SIZE, TEXT_ROOM};
use refusals::Refusal;
use text_digits::digits;
use text_parts::check_part;

// One to eight sequences, joined by commas.
#[tactic(auto, using(crate::proofs::Parts::rest))]
pub fn check_text(text: &[u8]) -> Result<(), Refusal>
    ensures { result ≡ checked WrongForm (text_right text.now) }
{
    if TEXT_ROOM < text.len() {
        return Err(Refusal::WrongForm);
    }
    let count = (text.len() + 1) / TEXT_PART_SIZE;
    if TEXT_PART_SIZE * count != text.len() + 1 {
        return Err(Refusal::WrongForm);
    }
    let table = digits();
    for k in 0..count {
        check_part(&table, text, TEXT_PART_SIZE * k)?;
    }
    Ok(())
}

// How many whole sequences any bytes hold.
pub fn count_sequences(sequences: &[u8]) -> usize
    ensures { result ≡ length sequences.now / sequence_size }
{
    sequences.len() / SEQUENCE_SIZE
}

// One to eight sequences, end to end.
#[tactic(auto, unfolding(model::specs::Text::sequences_right), using(buffer_sizes::specs::Pieces::slice_pieces))]
pub fn check_sequences(sequences: &[u8]) -> Result<(), Refusal>
    ensures { result ≡ checked WrongForm (sequences_right sequences.now) }
{
    if !whole_pieces(sequences.len(), SEQUENCE_SIZE, SEQUENCES_ROOM) {
        return Err(Refusal::WrongForm);
    }
    Ok(())
}
