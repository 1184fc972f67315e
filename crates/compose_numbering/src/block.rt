// The block of a new delta.
ghost use Rattle.std.specs.Prelude.{◌≡◌, eqb};
ghost use Rattle.model.specs.Compose.{new_block};
ghost use Rattle.set_table.specs.Table.{set_in};
ghost use Rattle.image_sections.specs.LogPlaces.{LogPlaces};

use buffer_reads::get_u32;
use layout::PURGED_BLOCK_AT;
use log_highest::block::highest_block;

// With priority, the block of a new delta behind a log, whose places are given, and behind what was purged; 0 without.
pub fn new_block(pool: &[u8], starts: &[u16], places: &[u8], flag: u32) -> u32
    requires { LogPlaces pool.now starts.now places.now }
    ensures { result ≡ new_block (set_in pool.now starts.now) (eqb flag 1) }
{
    if flag != 1 {
        return 0;
    }
    let purged = get_u32(pool, PURGED_BLOCK_AT);
    purged.max(highest_block(pool, starts, places)) + 1
}
