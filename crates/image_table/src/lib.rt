// The table of an image's messages, from their offsets.
#![tactic(auto)]

ghost use Rattle.std.specs.Prelude.{◌≡◌, ◌+◌, ◌<◌, length, take, T};
ghost use Rattle.model.specs.Layout.{capacity, image_size};
ghost use Rattle.model.specs.Order.{origin_right};
ghost use Rattle.model.specs.Image.{origin_in};
ghost use Rattle.set_table.specs.Table.{Holds};
ghost use Rattle.image_walk.specs.Walk.{count_in, Walkable, Offsets};
ghost use Rattle.image_table.specs.TableReading.{IsMessage, TakesIn, ReadsTable};

use layout::{CAPACITY, SEQUENCE_AT};
use message_sequence::{Sequence, read_sequence};
use refusals::Refusal;
use set_floors::is_purged;
use set_table::Table;
use set_table::inserting::insert_start;
use set_table::places::find_from_end;

// Puts a message's start in among the first count, by its sequence; refused at or below a floor, and where the sequence is there already.
fn take_in(b: &[u8], starts: &mut [u16], count: usize, at: u16, s: Sequence) -> Result<(), Refusal>
    requires { (length starts.old ≡ capacity) × (count < capacity) × Holds b.now (take count starts.old) × IsMessage b.now at s }
    ensures { TakesIn b.now (take count starts.old) at result (take (count + 1) starts.new) }
{
    if is_purged(b, s) {
        return Err(Refusal::NoImage);
    }
    let Err(p) = find_from_end(b, &starts[..count], s) else {
        return Err(Refusal::NoImage);
    };
    insert_start(starts, count, p, at);
    Ok(())
}

// The table of the messages at the offsets of a walk; refused where a sequence is there twice or at or below a floor, which no image has.
pub fn read_table(b: &[u8], offsets: &[u16]) -> Result<Table, Refusal>
    requires { (length b.now ≡ image_size) × Walkable b.now × Offsets b.now (count_in b.now) offsets.now × T (origin_right (origin_in b.now)) }
    ensures { ReadsTable b.now result }
{
    let mut starts = [0; CAPACITY];
    for (count, at) in offsets.iter().enumerate() {
        let s = read_sequence(b, *at as usize + SEQUENCE_AT);
        take_in(b, &mut starts, count, *at, s)?;
    }
    Ok(Table {
        starts,
        count: offsets.len(),
    })
}
