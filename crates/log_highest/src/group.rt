// The highest group.
ghost use Rattle.std.specs.Prelude.{◌≡◌, ◌≤◌};
ghost use Rattle.model.specs.Layout.{field_limit};
ghost use Rattle.model.specs.Compose.{highest_group};
ghost use Rattle.set_table.specs.Table.{deltas_of, deltas_at};
ghost use Rattle.image_sections.specs.LogPlaces.{TablePlaces};

use buffer_reads::get_u32;
use layout::GROUP_AT;
use set_table::entry::message_at;

// The highest group at the given places.
pub fn highest_group(pool: &[u8], starts: &[u16], places: &[u8]) -> u32
    requires { TablePlaces pool.now starts.now places.now }
    ensures { (result ≡ highest_group (deltas_at (deltas_of pool.now starts.now) places.now)) × (result ≤ field_limit) }
{
    let mut highest = 0;
    for place in places {
        let m = message_at(pool, starts, *place as usize);
        highest = highest.max(get_u32(m, GROUP_AT));
    }
    highest
}
