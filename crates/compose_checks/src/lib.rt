// The checks of compose's own arguments: the sizes (code 1), flag, priority and commands (code 6).
#![tactic(auto)]

ghost use Rattle.std.specs.Prelude.{◌≡◌};
ghost use Rattle.model.specs.Codes.{compose_content};
ghost use Rattle.refusals.specs.Refusals.{checked};
ghost use Rattle.refusals.specs.declared.Refusal.TheVariants.{WrongContent, WrongSize};
ghost use Rattle.compose_checks.specs.Checks.{sizes_right, given_right};

use buffer_sizes::{check_image_size, check_line_size, check_message_room};
use layout::FIELD_LIMIT;
use message_commands::check_commands;
use refusals::Refusal;

// Code 1: the sizes of the image, of the message buffer and of the line.
pub fn check_sizes(image: usize, room: usize, line: usize) -> Result<(), Refusal>
    ensures { result ≡ checked WrongSize (sizes_right image room line) }
{
    check_image_size(image)?;
    check_message_room(room)?;
    check_line_size(line)
}

// The flag is 0 or 1, and the priority within its limit, and zero without the flag.
#[tactic(auto, using(crate::proofs::GivenLaws::given_laws))]
fn check_given(flag: u32, priority: u32) -> Result<(), Refusal>
    ensures { result ≡ checked WrongContent (given_right flag priority) }
{
    if 1 < flag {
        return Err(Refusal::WrongContent);
    }
    if FIELD_LIMIT < priority {
        return Err(Refusal::WrongContent);
    }
    if flag == 1 {
        return Ok(());
    }
    if priority != 0 {
        return Err(Refusal::WrongContent);
    }
    Ok(())
}

// Code 6: flag, priority and every command, of any bytes.
#[tactic(auto, using(crate::specs::CheckLaws::content_parts))]
pub fn check_content(commands: &[u8], flag: u32, priority: u32) -> Result<(), Refusal>
    ensures { result ≡ checked WrongContent (compose_content commands.now flag priority) }
{
    check_given(flag, priority)?;
    check_commands(commands)
}
