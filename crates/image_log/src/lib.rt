// The log of an image as places of its table, from its offsets.
#![tactic(auto)]

ghost use Rattle.std.specs.Prelude.{length};
ghost use Rattle.image_log.specs.LogRead.{Readable, ReadsLog};

use layout::{CAPACITY, SEQUENCE_AT};
use message_sequence::read_sequence;
use set_table::places::find;

// The place of each message of an image's log, from the log's offsets.
pub fn read_places(b: &[u8], starts: &[u16], offsets: &[u16]) -> [u8; CAPACITY]
    requires { Readable b.now starts.now offsets.now }
    ensures { ReadsLog b.now starts.now (length offsets.now) result }
{
    let mut places = [0u8; CAPACITY];
    for (k, offset) in offsets.iter().enumerate() {
        let at = *offset as usize;
        let Ok(i) = find(b, starts, read_sequence(b, at + SEQUENCE_AT)) else {
            return places;
        };
        places[k] = i as u8;
    }
    places
}
