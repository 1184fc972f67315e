// The floors that a purge leaves: those of the image, raised by the sequences of the deltas that go.
#![tactic(auto)]

ghost use Rattle.std.specs.Prelude.{◌≡◌, ◌≤◌, length, T};
ghost use Rattle.model.specs.Layout.{most_floors, capacity};
ghost use Rattle.model.specs.Tops.{raise_tops};
ghost use Rattle.model.specs.Order.{origin_right, sequences_of};
ghost use Rattle.model.specs.Image.{origin_in};
ghost use Rattle.set_table.specs.Table.{deltas_of, deltas_at};
ghost use Rattle.image_sections.specs.LogPlaces.{TablePlaces};
ghost use Rattle.set_tops.specs.TopsIn.{tops_room, tops_in};

use buffer_writes::copy_at;
use layout::{FLOORS_START, SEQUENCE_SIZE};
use set_floors::count_floors;
use set_table::entry::sequence_at;
use set_tops::raise_top;

// Writes the floors of the image that a pool begins with, and answers how many there are.
fn copy_floors(tops: &mut [u8], pool: &[u8]) -> usize
    requires { T (origin_right (origin_in pool.now)) × (tops_room ≤ length tops.old) }
    ensures { (tops_in tops.new result ≡ (origin_in pool.now).floors) × (result ≤ most_floors) }
{
    let count = count_floors(pool);
    copy_at(tops, 0, &pool[FLOORS_START..], SEQUENCE_SIZE * count);
    count
}

// Writes the image's floors, raised by the sequence of the delta at each place, and answers how many there are then.
pub fn raise_floors(tops: &mut [u8], pool: &[u8], starts: &[u16], places: &[u8]) -> usize
    requires { TablePlaces pool.now starts.now places.now × (length places.now ≤ capacity) × (tops_room ≤ length tops.old) }
    ensures { tops_in tops.new result ≡ raise_tops (sequences_of (deltas_at (deltas_of pool.now starts.now) places.now)) (origin_in pool.now).floors }
{
    let mut count = copy_floors(tops, pool);
    for place in places {
        let s = sequence_at(pool, starts, *place as usize);
        count = raise_top(tops, count, s);
    }
    count
}
