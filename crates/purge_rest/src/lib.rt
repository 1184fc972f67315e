// What a purge leaves: the base values, block and group that the log starts from then, and where the messages that stay begin.
#![tactic(auto)]

ghost use Rattle.std.specs.Prelude.{◌≡◌, ◌+◌, ◌≤◌, length};
ghost use Rattle.model.specs.Bytes.{join};
ghost use Rattle.model.specs.Layout.{image_size};
ghost use Rattle.model.specs.Purge.{origin_past};
ghost use Rattle.set_table.specs.Table.{deltas_of, deltas_at, set_in};
ghost use Rattle.image_sections.specs.LogPlaces.{TablePlaces};
ghost use Rattle.purge_rest.specs.Rest.{FirstPlaces, IsRest};

use buffer_reads::get_u32;
use image_sections::running::run_log;
use layout::{PURGED_BLOCK_AT, PURGED_GROUP_AT, TAG_COUNT};
use log_highest::block::highest_block;
use log_highest::group::highest_group;
use set_table::entry::message_at;
use set_table::start::messages_start;

// `from` is where the first message that stays begins, in the image before the purge.
#[derive(Clone, Copy)]
pub struct Rest {
    pub base: [i32; TAG_COUNT],
    pub block: u32,
    pub group: u32,
    pub from: usize,
}

// Where the messages at the given places end, one behind the other from a place on.
fn end_of(pool: &[u8], starts: &[u16], places: &[u8], start: usize) -> usize
    requires { TablePlaces pool.now starts.now places.now × (start + length (join (deltas_at (deltas_of pool.now starts.now) places.now)) ≤ image_size) }
    ensures { result ≡ start + length (join (deltas_at (deltas_of pool.now starts.now) places.now)) }
{
    let mut at = start;
    for place in places {
        let m = message_at(pool, starts, *place as usize);
        at += m.len();
    }
    at
}

// The greatest purged block once the deltas at the given places are purged too.
fn purged_block(pool: &[u8], starts: &[u16], gone: &[u8]) -> u32
    requires { FirstPlaces pool.now starts.now gone.now }
    ensures { result ≡ (origin_past (set_in pool.now starts.now) (deltas_at (deltas_of pool.now starts.now) gone.now)).block }
{
    let purged = get_u32(pool, PURGED_BLOCK_AT);
    purged.max(highest_block(pool, starts, gone))
}

// And the greatest purged group.
fn purged_group(pool: &[u8], starts: &[u16], gone: &[u8]) -> u32
    requires { FirstPlaces pool.now starts.now gone.now }
    ensures { result ≡ (origin_past (set_in pool.now starts.now) (deltas_at (deltas_of pool.now starts.now) gone.now)).group }
{
    let purged = get_u32(pool, PURGED_GROUP_AT);
    purged.max(highest_group(pool, starts, gone))
}

// What the purge of the deltas at the given places leaves, which are the first of the log.
pub fn find_rest(pool: &[u8], starts: &[u16], gone: &[u8]) -> Rest
    requires { FirstPlaces pool.now starts.now gone.now }
    ensures { IsRest (set_in pool.now starts.now) (deltas_at (deltas_of pool.now starts.now) gone.now) result }
{
    let base = run_log(pool, starts, gone);
    let block = purged_block(pool, starts, gone);
    let group = purged_group(pool, starts, gone);
    let start = messages_start(pool);
    let from = end_of(pool, starts, gone, start);
    Rest {
        base,
        block,
        group,
        from,
    }
}
