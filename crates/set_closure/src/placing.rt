// A delta is placed where it is ready.
ghost use Rattle.std.specs.Prelude.{◌≡◌, [], ◌<◌, length, get_or};
ghost use Rattle.model.specs.Order.{own_block};
ghost use Rattle.set_table.specs.Table.{deltas_of, set_in, Holds};
ghost use Rattle.set_needs.specs.Rows.{RowsRight};
ghost use Rattle.set_closure.specs.Closing.{Closing, Tried};

use buffer_reads::get_u32;
use layout::{BLOCK_AT, PURGED_BLOCK_AT};
use set_readiness::{greater, greatest_along, ready};
use set_table::entry::message_at;

// A delta's own block, as it counts at a station: the one that its message states, and no less than the greatest purged one.
fn own_block(pool: &[u8], starts: &[u16], i: usize) -> u32
    requires { Holds pool.now starts.now × (i < length starts.now) }
    ensures { result ≡ own_block (set_in pool.now starts.now) (get_or (deltas_of pool.now starts.now) i []) }
{
    let stated = get_u32(message_at(pool, starts, i), BLOCK_AT);
    greater(stated, get_u32(pool, PURGED_BLOCK_AT))
}

// Places the delta at an index where it is ready: its mark, its effective block, and its index behind those placed before.
// Answers how many are placed.
pub fn try_place(
    pool: &[u8],
    starts: &[u16],
    rows: &[u8],
    counts: &[u8],
    placed: &mut [u8],
    blocks: &mut [u32],
    order: &mut [u8],
    count: usize,
    i: usize,
) -> usize
    requires { Holds pool.now starts.now × RowsRight (set_in pool.now starts.now) rows.now counts.now × Closing (set_in pool.now starts.now) placed.old blocks.old order.old count × (i < length starts.now) }
    ensures { Tried (set_in pool.now starts.now) rows.now counts.now placed.old count i placed.new blocks.new order.new result }
{
    if !ready(rows, counts, placed, i) {
        return count;
    }
    let block = greatest_along(rows, counts, blocks, i, own_block(pool, starts, i));
    placed[i] = 1;
    blocks[i] = block;
    order[count] = i as u8;
    count + 1
}
