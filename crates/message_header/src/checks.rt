// The check of code 3.
ghost use Rattle.std.specs.Prelude.{◌≡◌, ◌≤◌, length};
ghost use Rattle.model.specs.Layout.{header_size};
ghost use Rattle.model.specs.Message.{layout_right};
ghost use Rattle.message_header.specs.Check.{counts_right, offsets_right};
ghost use Rattle.refusals.specs.Refusals.{checked};
ghost use Rattle.refusals.specs.declared.Refusal.TheVariants.{WrongLayout};

use buffer_reads::{byte, get_u16, get_u32};
use layout::{
    COMMAND_COUNT_AT, COMMAND_SIZE, COMMANDS_OFFSET_AT, DEPENDENCIES_OFFSET_AT,
    DEPENDENCY_COUNT_AT, FIRST_ZEROS_AT, HEADER_SIZE, KIND_AT, LAST_ZEROS_AT, LENGTH_AT,
    MOST_COMMANDS, MOST_DEPENDENCIES, PRIORITY_FLAG_AT, SEQUENCE_SIZE,
};
use refusals::Refusal;

// Kind, byte 1, and the counts.
#[tactic(auto, unfolding(crate::specs::Check::counts_right))]
fn check_counts(m: &[u8]) -> Result<(), Refusal>
    requires { header_size ≤ length m.now }
    ensures { result ≡ checked WrongLayout (counts_right m.now) }
{
    if byte(m, KIND_AT) != 1 {
        return Err(Refusal::WrongLayout);
    }
    if 1 < byte(m, PRIORITY_FLAG_AT) {
        return Err(Refusal::WrongLayout);
    }
    let dependencies = byte(m, DEPENDENCY_COUNT_AT) as usize;
    if MOST_DEPENDENCIES < dependencies {
        return Err(Refusal::WrongLayout);
    }
    let commands = byte(m, COMMAND_COUNT_AT) as usize;
    if commands < 1 {
        return Err(Refusal::WrongLayout);
    }
    if MOST_COMMANDS < commands {
        return Err(Refusal::WrongLayout);
    }
    Ok(())
}

// The length, also against the bytes handed over, the offsets, and the bytes that are zero.
#[tactic(auto, unfolding(crate::specs::Check::offsets_right))]
fn check_offsets(m: &[u8]) -> Result<(), Refusal>
    requires { header_size ≤ length m.now }
    ensures { result ≡ checked WrongLayout (offsets_right m.now) }
{
    let dependencies = byte(m, DEPENDENCY_COUNT_AT) as usize;
    let start = HEADER_SIZE + SEQUENCE_SIZE * dependencies;
    let commands = byte(m, COMMAND_COUNT_AT) as usize;
    let total = start + COMMAND_SIZE * commands;
    if get_u16(m, LENGTH_AT) as usize != total {
        return Err(Refusal::WrongLayout);
    }
    if m.len() != total {
        return Err(Refusal::WrongLayout);
    }
    if get_u16(m, DEPENDENCIES_OFFSET_AT) as usize != HEADER_SIZE {
        return Err(Refusal::WrongLayout);
    }
    if get_u16(m, COMMANDS_OFFSET_AT) as usize != start {
        return Err(Refusal::WrongLayout);
    }
    if get_u16(m, FIRST_ZEROS_AT) != 0 {
        return Err(Refusal::WrongLayout);
    }
    if get_u32(m, LAST_ZEROS_AT) != 0 {
        return Err(Refusal::WrongLayout);
    }
    Ok(())
}

// Code 3, of any bytes: kind, byte 1, counts, length, offsets, and the bytes that are zero.
#[tactic(auto, using(crate::specs::LayoutLaws::short_wrong, crate::proofs::Parts::both_parts))]
pub fn check_layout(m: &[u8]) -> Result<(), Refusal>
    ensures { result ≡ checked WrongLayout (layout_right m.now) }
{
    if m.len() < HEADER_SIZE {
        return Err(Refusal::WrongLayout);
    }
    check_counts(m)?;
    check_offsets(m)
}
