// One pass over all deltas of a table.
ghost use Rattle.set_table.specs.Table.{set_in, Holds};
ghost use Rattle.set_needs.specs.Rows.{RowsRight};
ghost use Rattle.set_closure.specs.Closing.{Closing, Passed};

use crate::placing::try_place;

// Places each delta that is ready when it is looked at. Answers how many are placed.
#[tactic(auto, using(crate::proofs::Passes::passes))]
pub fn pass(
    pool: &[u8],
    starts: &[u16],
    rows: &[u8],
    counts: &[u8],
    placed: &mut [u8],
    blocks: &mut [u32],
    order: &mut [u8],
    count: usize,
) -> usize
    requires { Holds pool.now starts.now × RowsRight (set_in pool.now starts.now) rows.now counts.now × Closing (set_in pool.now starts.now) placed.old blocks.old order.old count }
    ensures { Passed (set_in pool.now starts.now) rows.now counts.now count placed.new blocks.new order.new result }
{
    let mut n = count;
    for i in 0..starts.len() {
        n = try_place(pool, starts, rows, counts, placed, blocks, order, n, i);
    }
    n
}
