// The message of an entry of a table, and its sequence.
ghost use Rattle.std.specs.Prelude.{◌≡◌, [], ◌<◌, length, get_or};
ghost use Rattle.message_sequence.specs.Sequence.{sequence_number};
ghost use Rattle.set_table.specs.Table.{deltas_of, Holds};
ghost use Rattle.set_table.specs.Places.{sequence_in};

use buffer_reads::get_u16;
use layout::{LENGTH_AT, SEQUENCE_AT};
use message_sequence::{Sequence, read_sequence};

// The part of the pool that holds the message of an entry.
pub fn message_at<'a>(pool: &'a [u8], starts: &[u16], i: usize) -> &'a [u8]
    requires { Holds pool.now starts.now × (i < length starts.now) }
    ensures { result.now ≡ get_or (deltas_of pool.now starts.now) i [] }
{
    let at = starts[i] as usize;
    let end = at + get_u16(pool, at + LENGTH_AT) as usize;
    &pool[at..end]
}

// The sequence of the message of an entry.
pub fn sequence_at(pool: &[u8], starts: &[u16], i: usize) -> Sequence
    requires { Holds pool.now starts.now × (i < length starts.now) }
    ensures { sequence_number result ≡ sequence_in pool.now starts.now i }
{
    let at = starts[i] as usize;
    read_sequence(pool, at + SEQUENCE_AT)
}
