// Sequences in either form, turned into the other: what the program `sequences` prints.
#![tactic(auto)]

pub mod lines;

ghost use Rattle.std.specs.Prelude.{◌≡◌};
ghost use Rattle.model.specs.Program.{printed_text, other_form};
ghost use Rattle.text_checks.specs.Answer.{converted_by};
ghost use Rattle.sequences_forms.specs.Forms.{put_at_front};

use crate::lines::{LINE_FEED, is_printable, line_size};
use layout::TEXT_ROOM;
use refusals::Refusal;
use text_reading::read_sequences;
use text_writing::write_sequences;

// a text and a line feed
pub const OUTPUT_ROOM: usize = TEXT_ROOM + 1;

// The text of sequences as a line.
#[tactic(auto, using(crate::proofs::Printing::printing))]
fn put_line(sequences: &[u8], output: &mut [u8; OUTPUT_ROOM]) -> Result<usize, Refusal>
    ensures { converted_by result output.new ≡ put_at_front (printed_text sequences.now) output.old }
{
    let size = write_sequences(sequences, output)?;
    output[size] = LINE_FEED;
    Ok(size + 1)
}

// Puts what is printed for an input at the front of the output, as many bytes as the answer says.
pub fn convert(input: &[u8], output: &mut [u8; OUTPUT_ROOM]) -> Result<usize, Refusal>
    ensures { converted_by result output.new ≡ put_at_front (other_form input.now) output.old }
{
    let size = line_size(input);
    if is_printable(&input[..size]) {
        return read_sequences(&input[..size], output);
    }
    put_line(input, output)
}
