// The writer: from sequences to their text.
#![tactic(auto)]

pub mod parts;

ghost use Rattle.std.specs.Prelude.{◌≡◌};
ghost use Rattle.model.specs.Calls as model;
ghost use Rattle.text_checks.specs.Answer.{converted_by};

use crate::parts::put_text;
use buffer_sizes::check_text_room;
use refusals::Refusal;
use text_checks::check_numbers;
use text_checks::forms::check_sequences;

// Writes the text of one to eight sequences: it stands at the front of its buffer, the rest unchanged. A refusal writes nothing.
#[tactic(auto, using(crate::proofs::Checks::by_checks))]
pub fn write_sequences(sequences: &[u8], text: &mut [u8]) -> Result<usize, Refusal>
    ensures { converted_by result text.new ≡ model.write_sequences sequences.now text.old }
{
    let Ok(()) = check_text_room(text.len()) else {
        return Err(Refusal::WrongSize);
    };
    let Ok(()) = check_sequences(sequences) else {
        return Err(Refusal::WrongForm);
    };
    let Ok(()) = check_numbers(sequences) else {
        return Err(Refusal::ZeroNumber);
    };
    Ok(put_text(text, sequences))
}
