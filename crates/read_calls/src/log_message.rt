// Log message: the part of the image that holds the message at a place, and the second call, which gives the code.
ghost use Rattle.std.specs.Prelude.{◌≡◌};
ghost use Rattle.model.specs.Calls.{log_message, log_message_code};
ghost use Rattle.read_calls.specs.Answers.{lookup_by};

use crate::locating::locate;
use refusals::Refusal;

// The part of the image that holds the log's message at a place; empty where the second call refuses.
pub fn log_message(image: &[u8], place: usize) -> &[u8]
    ensures { result.now ≡ log_message image.now place }
{
    let Ok(part) = locate(image, place) else {
        return &image[0..0];
    };
    let end = part.offset + part.size;
    &image[part.offset..end]
}

// The code of log message on the same arguments.
pub fn log_message_code(image: &[u8], place: usize) -> Result<(), Refusal>
    ensures { lookup_by result ≡ log_message_code image.now place }
{
    locate(image, place)?;
    Ok(())
}
