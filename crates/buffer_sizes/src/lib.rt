// Code 1: the sizes of the buffers that a call is handed; and whether bytes are whole pieces, one to eight.
#![tactic(auto)]

ghost use Rattle.std.specs.Prelude.{◌≡◌, not, ◌<◌, eqb, ltb};
ghost use Rattle.model.specs.Layout.{image_size, line_size, message_room, sequences_room, text_room};
ghost use Rattle.model.specs.Codes.{small_steps};
ghost use Rattle.refusals.specs.Refusals.{checked};
ghost use Rattle.refusals.specs.declared.Refusal.TheVariants.{WrongSize};
ghost use Rattle.buffer_sizes.specs.Pieces.{whole_pieces};

use layout::{IMAGE_SIZE, LINE_SIZE, LONGEST_MESSAGE, SEQUENCES_ROOM, STEP_ROOM, TEXT_ROOM};
use refusals::Refusal;

// Exactly so many bytes.
fn check_exactly(size: usize, exact: usize) -> Result<(), Refusal>
    ensures { result ≡ checked WrongSize (eqb size exact) }
{
    if size != exact {
        return Err(Refusal::WrongSize);
    }
    Ok(())
}

// So many bytes at least.
fn check_at_least(size: usize, least: usize) -> Result<(), Refusal>
    ensures { result ≡ checked WrongSize (not (ltb size least)) }
{
    if size < least {
        return Err(Refusal::WrongSize);
    }
    Ok(())
}

// At least one piece, no more bytes than the most, and no rest behind the last whole piece.
pub fn whole_pieces(size: usize, piece: usize, most: usize) -> bool
    requires { 0 < piece }
    ensures { result ≡ whole_pieces size piece most }
{
    piece <= size && size <= most && size % piece == 0
}

// An image: exactly its size.
pub fn check_image_size(size: usize) -> Result<(), Refusal>
    ensures { result ≡ checked WrongSize (eqb size image_size) }
{
    check_exactly(size, IMAGE_SIZE)
}

// A step buffer: room for the most steps of a delivery.
pub fn check_step_room(size: usize) -> Result<(), Refusal>
    ensures { result ≡ checked WrongSize (not (small_steps size)) }
{
    check_at_least(size, STEP_ROOM)
}

// A line: exactly its size.
pub fn check_line_size(size: usize) -> Result<(), Refusal>
    ensures { result ≡ checked WrongSize (eqb size line_size) }
{
    check_exactly(size, LINE_SIZE)
}

// A buffer for a composed message: room for the longest one.
pub fn check_message_room(size: usize) -> Result<(), Refusal>
    ensures { result ≡ checked WrongSize (not (ltb size message_room)) }
{
    check_at_least(size, LONGEST_MESSAGE)
}

// The reader's buffer for sequences: room for eight.
pub fn check_sequences_room(size: usize) -> Result<(), Refusal>
    ensures { result ≡ checked WrongSize (not (ltb size sequences_room)) }
{
    check_at_least(size, SEQUENCES_ROOM)
}

// The writer's buffer for a text: room for that of eight.
pub fn check_text_room(size: usize) -> Result<(), Refusal>
    ensures { result ≡ checked WrongSize (not (ltb size text_room)) }
{
    check_at_least(size, TEXT_ROOM)
}
