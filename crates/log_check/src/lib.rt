// Whether a log that is there already is the log of the set: it is checked, not ordered again.
#![tactic(auto)]

mod above;
mod waiting;

ghost use Rattle.set_table.specs.Table.{set_in, Holds};
ghost use Rattle.log_prepared.specs.Keys.{PreparedRight};
ghost use Rattle.log_check.specs.Checking.{Inside, ChecksLog};

use crate::above::above;
use crate::waiting::{any_ready, ready_from};
use layout::CAPACITY;
use refusals::Refusal;
use set_readiness::{MARKS, ready};

// Places the deltas of the log one after the other. Each has to be ready, and its key above those of all that stand at or behind
// the place from which it was ready; in the end none may be ready.
pub fn check_log(
    pool: &[u8],
    starts: &[u16],
    rows: &[u8],
    counts: &[u8],
    keys: &[u64],
    places: &[u8],
) -> Result<(), Refusal>
    requires { Holds pool.now starts.now × PreparedRight (set_in pool.now starts.now) rows.now counts.now keys.now × Inside (set_in pool.now starts.now) places.now }
    ensures { ChecksLog (set_in pool.now starts.now) places.now result }
{
    let mut placed = [0u8; MARKS];
    let mut ends = [0u32; MARKS];
    let mut froms = [0u8; CAPACITY];
    for (k, place) in places.iter().enumerate() {
        let i = *place as usize;
        if !ready(rows, counts, &placed, i) {
            return Err(Refusal::NoImage);
        }
        let from = ready_from(rows, counts, &ends, i);
        if !above(keys, places, &froms, from as usize, k) {
            return Err(Refusal::NoImage);
        }
        placed[i] = 1;
        froms[k] = from as u8;
        ends[i] = (k + 1) as u32;
    }
    if any_ready(rows, counts, &placed, starts.len()) {
        return Err(Refusal::NoImage);
    }
    Ok(())
}
