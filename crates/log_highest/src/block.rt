// The highest effective block.
ghost use Rattle.std.specs.Prelude.{◌≡◌, ◌≤◌, length, get_or};
ghost use Rattle.model.specs.Lists.{greatest};
ghost use Rattle.model.specs.Layout.{field_limit};
ghost use Rattle.model.specs.Compose.{highest_block};
ghost use Rattle.set_table.specs.Table.{deltas_of, deltas_at, set_in};
ghost use Rattle.set_table.specs.Places.{AllBelow};
ghost use Rattle.log_highest.specs.Logged.{LoggedPlaces};

use layout::CAPACITY;
use set_closure::closing::close;
use set_needs::rows::{ROWS, fill_rows};
use set_readiness::MARKS;

// The highest of the blocks at the given places.
fn highest_of(blocks: &[u32], places: &[u8]) -> u32
    requires { AllBelow (length blocks.now) places.now }
    ensures { result ≡ greatest (λ i. get_or blocks.now i 0) places.now }
{
    let mut highest = 0;
    for place in places {
        highest = highest.max(blocks[*place as usize]);
    }
    highest
}

// The highest effective block at the given places, which are the log's or some of them.
pub fn highest_block(pool: &[u8], starts: &[u16], places: &[u8]) -> u32
    requires { LoggedPlaces pool.now starts.now places.now }
    ensures { (result ≡ highest_block (set_in pool.now starts.now) (deltas_at (deltas_of pool.now starts.now) places.now)) × (result ≤ field_limit) }
{
    let mut rows = [0u8; ROWS];
    let mut counts = [0u8; CAPACITY];
    fill_rows(&mut rows, &mut counts, pool, starts);
    let mut blocks = [0u32; MARKS];
    let mut order = [0u8; CAPACITY];
    close(&mut blocks, &mut order, pool, starts, &rows, &counts);
    highest_of(&blocks, places)
}
