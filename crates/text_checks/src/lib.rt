// The checks of a text and of sequences, 13 for the form and 14 for the numbers; what reader and writer answer.
#![tactic(auto)]

pub mod forms;

ghost use Rattle.std.specs.Prelude.{◌≡◌};
ghost use Rattle.model.specs.Text.{all_numbered};
ghost use Rattle.refusals.specs.Refusals.{checked};
ghost use Rattle.refusals.specs.declared.Refusal.TheVariants.{ZeroNumber};

use crate::forms::count_sequences;
use layout::SEQUENCE_SIZE;
use message_sequence::{number_of, read_sequence};
use refusals::Refusal;

// Code 14: no number of whole sequences is 0000.
#[tactic(auto, using(crate::proofs::Numbers::numbering))]
pub fn check_numbers(sequences: &[u8]) -> Result<(), Refusal>
    ensures { result ≡ checked ZeroNumber (all_numbered sequences.now) }
{
    let count = count_sequences(sequences);
    for k in 0..count {
        if number_of(read_sequence(sequences, SEQUENCE_SIZE * k)) == 0 {
            return Err(Refusal::ZeroNumber);
        }
    }
    Ok(())
}
