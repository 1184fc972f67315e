// The sequences of a table's messages, read once, and the index of a sequence among them.
ghost use Rattle.std.specs.Prelude.{◌≡◌, map, length};
ghost use Rattle.model.specs.Layout.{capacity};
ghost use Rattle.message_sequence.specs.Sequence.{sequence_number};
ghost use Rattle.set_table.specs.Table.{deltas_of, Holds};
ghost use Rattle.set_needs.specs.Names.{Searchable, index_of, SequencesRight};

use layout::CAPACITY;
use message_sequence::{Sequence, equal, less};
use set_table::entry::sequence_at;

// Stands for a sequence that is not there. A number and no None, since the rows hold bytes.
pub const MISSING: u8 = CAPACITY as u8;

// Reads the sequences of all messages of a table, by index.
#[tactic(auto, using(crate::proofs::Reading::reading))]
pub fn read_sequences(sequences: &mut [Sequence], pool: &[u8], starts: &[u16])
    requires { (length sequences.old ≡ capacity) × Holds pool.now starts.now }
    ensures { SequencesRight (deltas_of pool.now starts.now) sequences.new }
{
    for (i, sequence) in sequences[..starts.len()].iter_mut().enumerate() {
        *sequence = sequence_at(pool, starts, i);
    }
}

// The index of a sequence among ascending ones, or that it is missing: halves what is left.
#[tactic(auto, using(crate::proofs::Halving::halving))]
pub fn index_of(sequences: &[Sequence], s: Sequence) -> u8
    requires { Searchable sequences.now }
    ensures { result ≡ index_of (map sequence_number sequences.now) (sequence_number s) }
{
    let mut first = 0;
    let mut last = sequences.len();
    // A while: two bounds move.
    while first < last {
        let middle = first + (last - first) / 2;
        let x = sequences[middle];
        if equal(x, s) {
            return middle as u8;
        }
        if less(x, s) {
            first = middle + 1;
        } else {
            last = middle;
        }
    }
    MISSING
}
