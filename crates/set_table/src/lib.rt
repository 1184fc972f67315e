// A set of messages in a run of bytes, the pool: where each starts, by sequence; found, inserted; where an image's messages start.
#![tactic(auto)]

pub mod entry;
pub mod inserting;
pub mod places;
pub mod shifting;
pub mod start;

ghost use Rattle.std.specs.Prelude.{◌≡◌, [], ◌≤◌, ◌<◌};
ghost use Rattle.model.specs.Layout.{capacity};
ghost use Rattle.set_table.specs.Table.{starts_of, Inserts};

use crate::inserting::insert_start;
use layout::CAPACITY;

// The places where messages start, the first `count` of them in use.
#[derive(Clone, Copy)]
pub struct Table {
    pub starts: [u16; CAPACITY],
    pub count: usize,
}

impl Table {
    // No messages.
    pub fn new() -> Table
        ensures { (starts_of result ≡ []) × (result.count ≡ 0) }
    {
        Table {
            starts: [0; CAPACITY],
            count: 0,
        }
    }

    // Puts a start in at a place; those from the place on move one on.
    pub fn insert(self, p: usize, at: u16) -> Table
        requires { (self.count < capacity) × (p ≤ self.count) }
        ensures { Inserts self p at result }
    {
        let count = self.count;
        let mut starts = self.starts;
        insert_start(&mut starts, count, p, at);
        Table {
            starts,
            count: count + 1,
        }
    }
}
