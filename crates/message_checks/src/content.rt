// The check of code 6.
ghost use Rattle.std.specs.Prelude.{◌≡◌, ◌≤◌, length};
ghost use Rattle.model.specs.Layout.{header_size};
ghost use Rattle.model.specs.Message.{dependency_count, command_count, total_length, content_right};
ghost use Rattle.refusals.specs.Refusals.{checked};
ghost use Rattle.refusals.specs.declared.Refusal.TheVariants.{WrongContent};
ghost use Rattle.message_checks.specs.Content.{priority_right};

use buffer_reads::{byte, get_u32};
use layout::{
    BLOCK_AT, DEPENDENCY_COUNT_AT, FIELD_LIMIT, GROUP_AT, HEADER_SIZE, PRIORITY_AT,
    PRIORITY_FLAG_AT, SEQUENCE_SIZE,
};
use message_commands::check_commands;
use refusals::Refusal;

// Block and priority: their limits, at least block 1 with the flag, both zero without.
#[tactic(auto, unfolding(crate::specs::Content::priority_right))]
fn check_priority(m: &[u8]) -> Result<(), Refusal>
    requires { header_size ≤ length m.now }
    ensures { result ≡ checked WrongContent (priority_right m.now) }
{
    let block = get_u32(m, BLOCK_AT);
    let priority = get_u32(m, PRIORITY_AT);
    if FIELD_LIMIT < block {
        return Err(Refusal::WrongContent);
    }
    if FIELD_LIMIT < priority {
        return Err(Refusal::WrongContent);
    }
    if byte(m, PRIORITY_FLAG_AT) == 1 {
        if block < 1 {
            return Err(Refusal::WrongContent);
        }
        return Ok(());
    }
    if block != 0 {
        return Err(Refusal::WrongContent);
    }
    if priority != 0 {
        return Err(Refusal::WrongContent);
    }
    Ok(())
}

// Code 6: group, block and priority, and the commands, which start past the dependencies.
#[tactic(auto, using(crate::proofs::Contents::contents))]
pub fn check_content(m: &[u8]) -> Result<(), Refusal>
    requires { length m.now ≡ total_length (dependency_count m.now) (command_count m.now) }
    ensures { result ≡ checked WrongContent (content_right m.now) }
{
    if FIELD_LIMIT < get_u32(m, GROUP_AT) {
        return Err(Refusal::WrongContent);
    }
    check_priority(m)?;
    let dependencies = byte(m, DEPENDENCY_COUNT_AT) as usize;
    let from = HEADER_SIZE + SEQUENCE_SIZE * dependencies;
    check_commands(&m[from..])
}
