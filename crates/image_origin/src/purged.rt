// What was purged, beside the floors: base values, block and group in their ranges.
ghost use Rattle.std.specs.Prelude.{◌≡◌, ◌&&◌, ◌≤◌, length, leb};
ghost use Rattle.model.specs.Lists.{every};
ghost use Rattle.model.specs.Bytes.{field};
ghost use Rattle.model.specs.Layout.{field_limit, purged_block_at, purged_group_at, setpoints_start};
ghost use Rattle.model.specs.Order.{in_range};
ghost use Rattle.model.specs.Image.{messages_start_in, base_in};
ghost use Rattle.refusals.specs.Refusals.{checked};
ghost use Rattle.refusals.specs.declared.Refusal.TheVariants.{NoImage};

use buffer_reads::get_u32;
use layout::{BASE_START, FIELD_LIMIT, PURGED_BLOCK_AT, PURGED_GROUP_AT, TAG_COUNT, VALUE_SIZE};
use message_commands::in_range;
use refusals::Refusal;

// The base values.
#[tactic(auto, using(crate::proofs::BaseValues::rest))]
pub fn check_base(b: &[u8]) -> Result<(), Refusal>
    requires { messages_start_in b.now ≤ length b.now }
    ensures { result ≡ checked NoImage (every in_range (base_in b.now)) }
{
    for tag in 0..TAG_COUNT {
        if !in_range(get_u32(b, BASE_START + VALUE_SIZE * tag)) {
            return Err(Refusal::NoImage);
        }
    }
    Ok(())
}

// The greatest purged block and group.
pub fn check_limits(b: &[u8]) -> Result<(), Refusal>
    requires { setpoints_start ≤ length b.now }
    ensures { result ≡ checked NoImage (leb (field b.now purged_block_at 4) field_limit && leb (field b.now purged_group_at 4) field_limit) }
{
    if FIELD_LIMIT < get_u32(b, PURGED_BLOCK_AT) {
        return Err(Refusal::NoImage);
    }
    if FIELD_LIMIT < get_u32(b, PURGED_GROUP_AT) {
        return Err(Refusal::NoImage);
    }
    Ok(())
}
