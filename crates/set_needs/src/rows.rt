// What each delta of a table needs, as indices of the table: a row for each, as long as it has needs.
ghost use Rattle.std.specs.Prelude.{◌≡◌, map, ◌+◌, ◌*◌, ◌≤◌, ◌<◌, length, T};
ghost use Rattle.model.specs.Layout.{capacity};
ghost use Rattle.model.specs.Order.{origin_right, sequences_of};
ghost use Rattle.model.specs.Image.{origin_in};
ghost use Rattle.message_sequence.specs.Sequence.{sequence_number};
ghost use Rattle.set_table.specs.Table.{deltas_of, set_in, Holds};
ghost use Rattle.set_needs.specs.Names.{Searchable};
ghost use Rattle.set_needs.specs.Rows.{row_size, left_out, row_of, RowFilled, RowsRight};

use crate::sequences::{MISSING, index_of, read_sequences};
use crate::wanted::{count_needs, need_of};
use layout::{CAPACITY, MOST_DEPENDENCIES};
use message_sequence::Sequence;
use set_floors::is_purged;
use set_table::entry::message_at;

// The room of a row: the predecessor and the most dependencies.
pub const ROW: usize = MOST_DEPENDENCIES + 1;

pub const ROWS: usize = ROW * CAPACITY;

// Whether a need is left out of a row, since it is at or below a floor. A delta that was received is above its floor, so that the floors are
// looked at only where none was.
fn is_left_out(pool: &[u8], s: Sequence, index: u8) -> bool
    requires { T (origin_right (origin_in pool.now)) }
    ensures { result ≡ left_out (origin_in pool.now) (sequence_number s) index }
{
    index == MISSING && is_purged(pool, s)
}

// Writes the row of a delta from a place on, and answers how long it is.
#[tactic(auto, using(crate::proofs::Filling::filling))]
fn fill_row(
    rows: &mut [u8],
    at: usize,
    pool: &[u8],
    starts: &[u16],
    i: usize,
    sequences: &[Sequence],
) -> usize
    requires { (at + row_size ≤ length rows.old) × Holds pool.now starts.now × (i < length starts.now)
        × Searchable sequences.now × (map sequence_number sequences.now ≡ sequences_of (deltas_of pool.now starts.now)) }
    ensures { RowFilled rows.old at (row_of (set_in pool.now starts.now) i) rows.new result }
{
    let m = message_at(pool, starts, i);
    let count = count_needs(m);
    let mut n = 0;
    for k in 0..count {
        let s = need_of(m, k);
        let index = index_of(sequences, s);
        if !is_left_out(pool, s, index) {
            rows[at + n] = index;
            n += 1;
        }
    }
    n
}

// Writes the rows of all deltas of a table, and how long each is.
#[tactic(auto, using(crate::proofs::Filled::filled))]
pub fn fill_rows(rows: &mut [u8], counts: &mut [u8], pool: &[u8], starts: &[u16])
    requires { (length rows.old ≡ row_size * capacity) × (length counts.old ≡ capacity) × Holds pool.now starts.now }
    ensures { RowsRight (set_in pool.now starts.now) rows.new counts.new }
{
    let mut sequences = [Sequence { high: 0, low: 0 }; CAPACITY];
    read_sequences(&mut sequences, pool, starts);
    let used = &sequences[..starts.len()];
    for i in 0..starts.len() {
        let count = fill_row(rows, ROW * i, pool, starts, i, used);
        counts[i] = count as u8;
    }
}
