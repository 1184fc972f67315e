// The keys of a table's executable deltas, each made once.
ghost use Rattle.std.specs.Prelude.{◌≡◌, length};
ghost use Rattle.set_table.specs.Table.{deltas_of, Holds};
ghost use Rattle.set_readiness.specs.Ready.{marks_size};
ghost use Rattle.log_prepared.specs.Keys.{Keyed, InTable, KeysMade};

use log_key::{make_key, put_key};
use message_header::header::read_header;
use set_table::entry::message_at;

// Writes the keys of the deltas at these indices, each with its effective block.
#[tactic(auto, using(crate::proofs::Making::making))]
pub fn fill_keys(keys: &mut [u64], pool: &[u8], starts: &[u16], blocks: &[u32], indices: &[u8])
    requires { Keyed keys.old × Holds pool.now starts.now × (length blocks.now ≡ marks_size) × InTable starts.now indices.now }
    ensures { KeysMade (deltas_of pool.now starts.now) blocks.now indices.now keys.new }
{
    for index in indices {
        let i = *index as usize;
        let header = read_header(message_at(pool, starts, i));
        let priority = header.priority;
        let key = make_key(blocks[i], priority, header);
        put_key(keys, i, key);
    }
}
