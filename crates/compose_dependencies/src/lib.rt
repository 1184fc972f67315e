// What a new delta depends on: the log deltas that no other log delta needs, less its predecessor.
#![tactic(auto)]

pub mod marks;

ghost use Rattle.std.specs.Prelude.{◌≡◌, ◌<◌, length};
ghost use Rattle.model.specs.Lists.{has};
ghost use Rattle.model.specs.Message.{predecessor_of};
ghost use Rattle.message_sequence.specs.Sequence.{sequence_number};
ghost use Rattle.set_table.specs.Table.{set_in, Holds};
ghost use Rattle.set_table.specs.Places.{sequence_in};
ghost use Rattle.image_sections.specs.LogPlaces.{LogPlaces};
ghost use Rattle.compose_dependencies.specs.Unneeded.{chosen, UsesRight, IsDependencies};

use crate::marks::{mark, mark_needs};
use layout::CAPACITY;
use message_sequence::{Sequence, equal, predecessor_of};
use set_needs::rows::{ROWS, fill_rows};
use set_readiness::MARKS;
use set_table::entry::sequence_at;

// Marks by index of the table: what is in the log, and what a delta of the log needs.
#[derive(Clone, Copy)]
pub struct Uses {
    pub logged: [u8; MARKS],
    pub needed: [u8; MARKS],
}

// Places of a table, the first `count` of the array.
#[derive(Clone, Copy)]
pub struct Dependencies {
    pub places: [u8; CAPACITY],
    pub count: usize,
}

// Marks the log, whose places are given, and all that it needs.
fn mark_uses(pool: &[u8], starts: &[u16], places: &[u8]) -> Uses
    requires { LogPlaces pool.now starts.now places.now }
    ensures { UsesRight (set_in pool.now starts.now) result }
{
    let mut rows = [0u8; ROWS];
    let mut counts = [0u8; CAPACITY];
    fill_rows(&mut rows, &mut counts, pool, starts);
    let mut logged = [0u8; MARKS];
    mark(&mut logged, places);
    let mut needed = [0u8; MARKS];
    mark_needs(&mut needed, &rows, &counts, places);
    Uses { logged, needed }
}

// Whether one sequence is the predecessor of another.
fn is_predecessor(x: Sequence, s: Sequence) -> bool
    ensures { result ≡ has (sequence_number x) (predecessor_of (sequence_number s)) }
{
    predecessor_of(s).is_some_and(|p| equal(x, p))
}

// Whether a new delta of the sequence s depends on the delta at an index.
#[tactic(auto, using(crate::proofs::Marked::marked))]
fn is_dependency(pool: &[u8], starts: &[u16], uses: &Uses, i: usize, s: Sequence) -> bool
    requires { Holds pool.now starts.now × UsesRight (set_in pool.now starts.now) uses.now × (i < length starts.now) }
    ensures { result ≡ chosen (set_in pool.now starts.now) (sequence_number s) (sequence_in pool.now starts.now i) }
{
    if uses.logged[i] == 0 || uses.needed[i] != 0 {
        return false;
    }
    !is_predecessor(sequence_at(pool, starts, i), s)
}

// The places of what a new delta of the sequence s depends on, ascending. `places` are the log's.
#[tactic(auto, using(set_table::specs::TableLaws::table_count))]
pub fn find_dependencies(pool: &[u8], starts: &[u16], places: &[u8], s: Sequence) -> Dependencies
    requires { LogPlaces pool.now starts.now places.now }
    ensures { IsDependencies pool.now starts.now (sequence_number s) result }
{
    let uses = mark_uses(pool, starts, places);
    let mut found = [0u8; CAPACITY];
    let mut n = 0;
    for i in 0..starts.len() {
        if is_dependency(pool, starts, &uses, i, s) {
            found[n] = i as u8;
            n += 1;
        }
    }
    Dependencies {
        places: found,
        count: n,
    }
}
