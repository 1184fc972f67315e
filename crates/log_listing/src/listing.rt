// The log of a set, delta by delta.
ghost use Rattle.std.specs.Prelude.{◌≡◌, []};
ghost use Rattle.set_table.specs.Table.{set_in, Holds};
ghost use Rattle.log_order.specs.LogOrder.{places_of, OrderRight};
ghost use Rattle.log_prepared.specs.Keys.{PreparedRight};
ghost use Rattle.log_listing.specs.Ordered.{Ordered};

use crate::next::{first_ready, skip_placed};
use log_order::LogOrder;
use log_sorting::sort_by_key;
use set_readiness::MARKS;

// Of all deltas that are ready it places the one of the lowest key, again and again, until none is.
pub fn order(
    pool: &[u8],
    starts: &[u16],
    rows: &[u8],
    counts: &[u8],
    keys: &[u64],
    begun: LogOrder,
) -> LogOrder
    requires { Holds pool.now starts.now × PreparedRight (set_in pool.now starts.now) rows.now counts.now keys.now × OrderRight begun × (places_of begun ≡ []) }
    ensures { Ordered (set_in pool.now starts.now) begun result }
{
    let used = starts.len();
    let sorted = sort_by_key(keys, used);
    let by_key = &sorted[..used];
    let mut placed = [0u8; MARKS];
    let mut log = begun;
    let mut first = 0;
    for _ in 0..used {
        first = skip_placed(by_key, &placed, first);
        let Some(i) = first_ready(rows, counts, by_key, &placed, first) else {
            return log;
        };
        placed[i] = 1;
        log = log.place(i as u8);
    }
    log
}
