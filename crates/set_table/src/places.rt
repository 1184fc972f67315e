// Where the message of a sequence stands in a table, or where it would.
ghost use Rattle.message_sequence.specs.Sequence.{sequence_number};
ghost use Rattle.set_table.specs.Table.{Holds};
ghost use Rattle.set_table.specs.Places.{Finds};

use crate::entry::sequence_at;
use message_sequence::{Sequence, equal, less};

// Searches messages by ascending sequence, halving what is left: Ok is the place of the sequence's message,
// Err the place between lower and higher ones where it would stand.
pub fn find(pool: &[u8], starts: &[u16], s: Sequence) -> Result<usize, usize>
    requires { Holds pool.now starts.now }
    ensures { Finds pool.now starts.now (sequence_number s) result }
{
    let mut low = 0;
    let mut high = starts.len();
    // A while: two bounds move. std's search may call its closure on any number, and only at the starts in use may be read.
    while low < high {
        let middle = low + (high - low) / 2;
        let x = sequence_at(pool, starts, middle);
        if equal(x, s) {
            return Ok(middle);
        }
        if less(x, s) {
            low = middle + 1;
        } else {
            high = middle;
        }
    }
    Err(low)
}

// The same, for sequences that mostly come one above the other: the last message is looked at before all others.
pub fn find_from_end(pool: &[u8], starts: &[u16], s: Sequence) -> Result<usize, usize>
    requires { Holds pool.now starts.now }
    ensures { Finds pool.now starts.now (sequence_number s) result }
{
    let count = starts.len();
    if count == 0 {
        return Err(0);
    }
    let last = sequence_at(pool, starts, count - 1);
    if less(last, s) {
        return Err(count);
    }
    find(pool, starts, s)
}
