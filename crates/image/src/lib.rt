// The used bytes of a set's image, written from the places of its log; the image of no deltas.
#![tactic(auto)]

ghost use Rattle.std.specs.Prelude.{◌≡◌, ◌≤◌, length, T};
ghost use Rattle.model.specs.Layout.{image_size, setpoints_start};
ghost use Rattle.model.specs.Order.{origin_right};
ghost use Rattle.model.specs.Image.{image_of, origin_in};
ghost use Rattle.model.specs.Calls.{empty_state};
ghost use Rattle.set_table.specs.Table.{set_in};
ghost use Rattle.image_sections.specs.LogPlaces.{ImageInput};
ghost use Rattle.image_header.specs.Pieces.{pasted, UsedWritten};
ghost use Rattle.image_sections.specs.Sections.{header_with};

use buffer_reads::get_u32;
use buffer_writes::clear_from;
use image_header::put_image_header;
use image_sections::held::held_places;
use image_sections::messages::put_messages;
use image_sections::origin::put_origin;
use image_sections::running::run_log;
use layout::{FLOORS_START, PURGED_BLOCK_AT, PURGED_GROUP_AT, SETPOINTS_START};
use set_floors::count_floors;
use set_table::start::messages_start;
use setpoints_values::put_values;

// Writes the header; how many floors, the purged block and the purged group are those that the pool begins with.
fn put_header(out: &mut [u8], pool: &[u8], log: u32, held: u32, start: u32, used: u32)
    requires { T (origin_right (origin_in pool.now)) × (setpoints_start ≤ length out.old) }
    ensures { out.new ≡ pasted out.old 0 (header_with (origin_in pool.now) log held start used) }
{
    let floors = count_floors(pool) as u32;
    let block = get_u32(pool, PURGED_BLOCK_AT);
    let group = get_u32(pool, PURGED_GROUP_AT);
    put_image_header(out, log, held, start, used, floors, block, group);
}

// Writes the used bytes of the image of the set whose messages start at `starts` in the pool; `places` are the log's, in its order.
// Returns how many these are. What stands behind them stays.
pub fn write_used(out: &mut [u8], pool: &[u8], starts: &[u16], places: &[u8]) -> usize
    requires { ImageInput out.old pool.now starts.now places.now }
    ensures { UsedWritten (set_in pool.now starts.now) out.old out.new result }
{
    let values = run_log(pool, starts, places);
    let held = held_places(starts.len(), places);
    let others = held.places;
    let count = held.count;
    let start = messages_start(pool);
    let used = put_messages(out, pool, starts, places, &others[0..count], start);
    put_header(
        out,
        pool,
        places.len() as u32,
        count as u32,
        start as u32,
        used as u32,
    );
    put_values(out, values, SETPOINTS_START);
    put_origin(out, pool, start);
    used
}

// Writes the image of the empty set, from a pool of zeros: nothing was purged.
pub fn put_empty(out: &mut [u8])
    requires { length out.old ≡ image_size }
    ensures { out.new ≡ image_of empty_state }
{
    let pool = [0u8; FLOORS_START];
    let starts = [0u16; 1];
    let places = [0u8; 1];
    let used = write_used(out, &pool, &starts[0..0], &places[0..0]);
    clear_from(out, used);
}
