// Messages of the pool, copied one behind the other.
ghost use Rattle.std.specs.Prelude.{◌+◌, ◌≤◌, length};
ghost use Rattle.model.specs.Bytes.{join};
ghost use Rattle.model.specs.Image.{messages_of};
ghost use Rattle.set_table.specs.Table.{deltas_of, deltas_at, set_in};
ghost use Rattle.image_sections.specs.LogPlaces.{TablePlaces, AllPlaces};
ghost use Rattle.image_header.specs.Pieces.{Copied};

use buffer_writes::copy_at;
use set_table::entry::message_at;

// Copies the messages at the given places, in order. Returns the place behind the last.
fn copy_messages(out: &mut [u8], pool: &[u8], starts: &[u16], places: &[u8], at: usize) -> usize
    requires { TablePlaces pool.now starts.now places.now × (at + length (join (deltas_at (deltas_of pool.now starts.now) places.now)) ≤ length out.old) }
    ensures { Copied out.old at (join (deltas_at (deltas_of pool.now starts.now) places.now)) out.new result }
{
    let mut to = at;
    for place in places {
        let m = message_at(pool, starts, *place as usize);
        copy_at(out, to, m, m.len());
        to += m.len();
    }
    to
}

// Writes the section of the messages: the log's in order, and the held ones behind them. Returns the place behind the last.
pub fn put_messages(
    out: &mut [u8],
    pool: &[u8],
    starts: &[u16],
    places: &[u8],
    others: &[u8],
    at: usize,
) -> usize
    requires { AllPlaces pool.now starts.now places.now others.now × (at + length (messages_of (set_in pool.now starts.now)) ≤ length out.old) }
    ensures { Copied out.old at (messages_of (set_in pool.now starts.now)) out.new result }
{
    let behind = copy_messages(out, pool, starts, places, at);
    copy_messages(out, pool, starts, others, behind)
}
