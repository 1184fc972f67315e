// Sequences, written as twelve bytes each.
ghost use Rattle.std.specs.Prelude.{◌≡◌, ◌+◌, ◌*◌, ◌≤◌, length};
ghost use Rattle.model.specs.Layout.{sequence_size};
ghost use Rattle.image_sections.specs.LogPlaces.{TablePlaces};
ghost use Rattle.image_header.specs.Pieces.{pasted};
ghost use Rattle.compose_writing.specs.Writing.{names_at, sequences_bytes};

use layout::SEQUENCE_SIZE;
use message_sequence::put_sequence;
use set_table::entry::sequence_at;

// Writes the sequences at the given places of a table, one behind the other.
pub fn put_sequences(message: &mut [u8], pool: &[u8], starts: &[u16], places: &[u8], at: usize)
    requires { TablePlaces pool.now starts.now places.now × (at + sequence_size * length places.now ≤ length message.old) }
    ensures { message.new ≡ pasted message.old at (sequences_bytes (names_at pool.now starts.now places.now)) }
{
    let mut to = at;
    for place in places {
        put_sequence(message, to, sequence_at(pool, starts, *place as usize));
        to += SEQUENCE_SIZE;
    }
}
