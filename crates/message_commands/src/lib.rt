// The checks of commands, of a message's own and of those handed over to be composed.
#![tactic(auto)]

ghost use Rattle.std.specs.Prelude.{◌≡◌, ◌+◌, ◌/◌, ◌≤◌, length, take, drop};
ghost use Rattle.model.specs.Layout.{command_size};
ghost use Rattle.model.specs.Message.{command_right};
ghost use Rattle.model.specs.Codes.{commands_sized};
ghost use Rattle.refusals.specs.Refusals.{checked};
ghost use Rattle.refusals.specs.declared.Refusal.TheVariants.{WrongContent, WrongLayout};
ghost use Rattle.message_commands.specs.CommandTests.{value_right, commands_right};

use buffer_reads::{byte, get_u16, get_u32};
use buffer_sizes::whole_pieces;
use layout::{
    COMMAND_SIZE, COMMAND_ZEROS_AT, HIGHEST_VALUE_WORD, LOWEST_VALUE_WORD, MOST_COMMANDS, TAG_AT,
    TAG_COUNT, VALUE_AT,
};
use refusals::Refusal;

// Whether four bytes, as two's complement, are a value from -1000000 to 1000000.
#[tactic(auto, using(crate::specs::CommandFacts::value_high, crate::specs::CommandFacts::value_low))]
pub fn in_range(value: u32) -> bool
    ensures { result ≡ value_right value }
{
    if value <= HIGHEST_VALUE_WORD {
        return true;
    }
    LOWEST_VALUE_WORD <= value
}

// The command that starts at a place: operation, tag, zeros and value.
#[tactic(auto, using(crate::proofs::Fields::fields))]
fn check_command(c: &[u8], at: usize) -> Result<(), Refusal>
    requires { at + command_size ≤ length c.now }
    ensures { result ≡ checked WrongContent (command_right (take command_size (drop at c.now))) }
{
    let operation = byte(c, at);
    if operation < 1 {
        return Err(Refusal::WrongContent);
    }
    if 3 < operation {
        return Err(Refusal::WrongContent);
    }
    if TAG_COUNT <= byte(c, at + TAG_AT) as usize {
        return Err(Refusal::WrongContent);
    }
    if get_u16(c, at + COMMAND_ZEROS_AT) != 0 {
        return Err(Refusal::WrongContent);
    }
    if !in_range(get_u32(c, at + VALUE_AT)) {
        return Err(Refusal::WrongContent);
    }
    Ok(())
}

// How many whole commands any bytes hold.
fn count_commands(c: &[u8]) -> usize
    ensures { result ≡ length c.now / command_size }
{
    c.len() / COMMAND_SIZE
}

// Every whole command of any bytes.
#[tactic(auto, using(crate::proofs::Rest::rest))]
pub fn check_commands(c: &[u8]) -> Result<(), Refusal>
    ensures { result ≡ checked WrongContent (commands_right c.now) }
{
    let count = count_commands(c);
    for k in 0..count {
        check_command(c, COMMAND_SIZE * k)?;
    }
    Ok(())
}

// Whether any bytes are one to eight commands long, by whole commands.
#[tactic(auto, using(buffer_sizes::specs::Pieces::slice_pieces))]
pub fn commands_sized(c: &[u8]) -> Result<(), Refusal>
    ensures { result ≡ checked WrongLayout (commands_sized c.now) }
{
    if !whole_pieces(c.len(), COMMAND_SIZE, COMMAND_SIZE * MOST_COMMANDS) {
        return Err(Refusal::WrongLayout);
    }
    Ok(())
}
