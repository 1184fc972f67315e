// The reader: from a text to sequences.
#![tactic(auto)]

pub mod parts;

ghost use Rattle.std.specs.Prelude.{◌≡◌};
ghost use Rattle.model.specs.Calls as model;
ghost use Rattle.text_checks.specs.Answer.{converted_by};

use crate::parts::read_text;
use buffer_sizes::check_sequences_room;
use buffer_writes::copy_at;
use layout::SEQUENCES_ROOM;
use refusals::Refusal;
use text_checks::check_numbers;
use text_checks::forms::check_text;

// Reads one to eight sequences from a text: they stand at the front of their buffer, the rest unchanged. A refusal writes nothing.
#[tactic(auto, using(crate::proofs::Checks::by_checks, crate::specs::ReadCases::bytes_are, crate::specs::ReadCases::copied))]
pub fn read_sequences(text: &[u8], sequences: &mut [u8]) -> Result<usize, Refusal>
    ensures { converted_by result sequences.new ≡ model.read_sequences text.now sequences.old }
{
    let Ok(()) = check_sequences_room(sequences.len()) else {
        return Err(Refusal::WrongSize);
    };
    let Ok(()) = check_text(text) else {
        return Err(Refusal::WrongForm);
    };
    let mut bytes = [0u8; SEQUENCES_ROOM];
    let size = read_text(text, &mut bytes);
    let Ok(()) = check_numbers(&bytes[..size]) else {
        return Err(Refusal::ZeroNumber);
    };
    copy_at(sequences, 0, &bytes, size);
    Ok(size)
}
