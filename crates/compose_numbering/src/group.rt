// The group of a new delta.
ghost use Rattle.std.specs.Prelude.{◌≡◌};
ghost use Rattle.model.specs.Compose.{new_group};
ghost use Rattle.message_sequence.specs.Sequence.{sequence_number};
ghost use Rattle.set_table.specs.Table.{set_in};
ghost use Rattle.image_sections.specs.LogPlaces.{LogPlaces};

use buffer_reads::get_u32;
use layout::PURGED_GROUP_AT;
use log_highest::group::highest_group;
use message_sequence::{Sequence, less};
use set_table::entry::sequence_at;

// The group of a new delta of the sequence s behind a log, whose places are given, and behind what was purged.
pub fn new_group(pool: &[u8], starts: &[u16], places: &[u8], s: Sequence) -> u32
    requires { LogPlaces pool.now starts.now places.now }
    ensures { result ≡ new_group (set_in pool.now starts.now) (sequence_number s) }
{
    let purged = get_u32(pool, PURGED_GROUP_AT);
    let Some(last) = places.last() else {
        return purged + 1;
    };
    let highest = purged.max(highest_group(pool, starts, places));
    if less(s, sequence_at(pool, starts, *last as usize)) {
        return highest + 1;
    }
    highest
}
