// All that is executable, with its effective block.
ghost use Rattle.std.specs.Prelude.{◌≡◌, length};
ghost use Rattle.model.specs.Layout.{capacity};
ghost use Rattle.set_table.specs.Table.{set_in, Holds};
ghost use Rattle.set_needs.specs.Rows.{RowsRight};
ghost use Rattle.set_readiness.specs.Ready.{marks_size};
ghost use Rattle.set_closure.specs.Closing.{Closed};

use crate::passing::pass;
use set_readiness::MARKS;

// Passes over the deltas until a pass places none. Writes the effective blocks of the executable deltas by index of the table, and the
// order in which they were placed. Answers how many are placed.
#[tactic(auto, using(crate::proofs::Passes::closes))]
pub fn close(
    blocks: &mut [u32],
    order: &mut [u8],
    pool: &[u8],
    starts: &[u16],
    rows: &[u8],
    counts: &[u8],
) -> usize
    requires { (length blocks.old ≡ marks_size) × (length order.old ≡ capacity) × Holds pool.now starts.now × RowsRight (set_in pool.now starts.now) rows.now counts.now }
    ensures { Closed (set_in pool.now starts.now) rows.now counts.now blocks.new order.new result }
{
    let mut placed = [0u8; MARKS];
    let mut count = 0;
    loop {
        let next = pass(
            pool,
            starts,
            rows,
            counts,
            &mut placed,
            blocks,
            order,
            count,
        );
        if next == count {
            return count;
        }
        count = next;
    }
}
