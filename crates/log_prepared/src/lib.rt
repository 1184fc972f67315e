// What a log is computed from and checked by: the needs of each delta by index, and the keys.
#![tactic(auto)]

pub mod keys;

ghost use Rattle.std.specs.Prelude.{◌≡◌, ◌*◌, length};
ghost use Rattle.model.specs.Layout.{capacity};
ghost use Rattle.set_table.specs.Table.{set_in, Holds};
ghost use Rattle.set_needs.specs.Rows.{row_size};
ghost use Rattle.log_prepared.specs.Keys.{Keyed, PreparedRight};

use crate::keys::fill_keys;
use layout::CAPACITY;
use set_closure::closing::close;
use set_needs::rows::fill_rows;
use set_readiness::MARKS;

// Writes the needs of all deltas, closes them for what is executable and the effective blocks, and writes the keys.
pub fn prepare(rows: &mut [u8], counts: &mut [u8], keys: &mut [u64], pool: &[u8], starts: &[u16])
    requires { (length rows.old ≡ row_size * capacity) × (length counts.old ≡ capacity) × Keyed keys.old × Holds pool.now starts.now }
    ensures { PreparedRight (set_in pool.now starts.now) rows.new counts.new keys.new }
{
    fill_rows(rows, counts, pool, starts);
    let mut blocks = [0u32; MARKS];
    let mut executable = [0u8; CAPACITY];
    let count = close(&mut blocks, &mut executable, pool, starts, rows, counts);
    fill_keys(keys, pool, starts, &blocks, &executable[..count]);
}
