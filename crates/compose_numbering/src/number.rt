// The number of a new delta: one more than its line's greatest in the log and than its line's floor.
ghost use Rattle.std.specs.Prelude.{◌≡◌, ◌≤◌};
ghost use Rattle.model.specs.Layout.{numbers_of_line};
ghost use Rattle.model.specs.Message.{number_of, line_of};
ghost use Rattle.model.specs.Compose.{number_on, new_number};
ghost use Rattle.message_sequence.specs.Sequence.{sequence_number};
ghost use Rattle.set_table.specs.Table.{set_in};
ghost use Rattle.image_sections.specs.LogPlaces.{LogPlaces};

use message_sequence::{Sequence, number_of, same_line};
use set_floors::floor_number;
use set_table::entry::sequence_at;

// The number of a sequence that is on a line; 0 of any other.
fn number_on(s: Sequence, line: Sequence) -> u32
    ensures { result ≡ number_on (line_of (sequence_number line)) (sequence_number s) }
{
    if same_line(s, line) {
        return number_of(s);
    }
    0
}

// One more than a line's greatest number in a log, whose places are given, and than its floor's. The line is given as the sequence of its
// number 0000.
pub fn new_number(pool: &[u8], starts: &[u16], places: &[u8], line: Sequence) -> u32
    requires { LogPlaces pool.now starts.now places.now × (number_of (sequence_number line) ≡ 0) }
    ensures { (result ≡ new_number (set_in pool.now starts.now) (line_of (sequence_number line))) × (result ≤ numbers_of_line) }
{
    let mut greatest = floor_number(pool, line);
    for place in places {
        let s = sequence_at(pool, starts, *place as usize);
        greatest = greatest.max(number_on(s, line));
    }
    greatest + 1
}
