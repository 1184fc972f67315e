// Compose, for C.
ghost use Rattle.bivamolune_packing.specs.ComposeAnswers.{Composes};

use bivamolune_packing::lengths::pack_length;
use compose::compose;

// Composes a message, and answers code + 256 × length.
pub fn bivamolune_compose(
    image: &[u8],
    line: &[u8],
    commands: &[u8],
    priority_flag: u32,
    priority: u32,
    message: &mut [u8],
) -> u32
    ensures { Composes image.now line.now commands.now priority_flag priority message.old result message.new }
{
    let composed = compose(image, line, commands, priority_flag, priority, message);
    pack_length(composed)
}
