// The delta at a place of a log, which is given as places of a table.
ghost use Rattle.std.specs.Prelude.{◌≡◌, [], ◌<◌, length, get_or};
ghost use Rattle.set_table.specs.Table.{deltas_of, deltas_at};
ghost use Rattle.image_sections.specs.LogPlaces.{TablePlaces};

use set_table::entry::message_at;

pub fn delta_at<'a>(pool: &'a [u8], starts: &[u16], places: &[u8], k: usize) -> &'a [u8]
    requires { TablePlaces pool.now starts.now places.now × (k < length places.now) }
    ensures { result.now ≡ get_or (deltas_at (deltas_of pool.now starts.now) places.now) k [] }
{
    let place = places[k] as usize;
    message_at(pool, starts, place)
}
