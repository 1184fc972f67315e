// Compose, for C.
ghost use Rattle.bivamolune_packing.specs.ComposeAnswers.{Composes};

// Composes a message, and answers code + 256 × length.
#[unsafe(no_mangle)]
pub extern "C" fn bivamolune_compose(
    image: &[u8],
    line: &[u8],
    commands: &[u8],
    priority_flag: u32,
    priority: u32,
    message: &mut [u8],
) -> u32
    ensures { Composes image.now line.now commands.now priority_flag priority message.old result message.new }
{
    bivamolune::composition::bivamolune_compose(
        image,
        line,
        commands,
        priority_flag,
        priority,
        message,
    )
}
