// Tops as bytes, twelve each: the place of a sequence's line among them, and the line's top raised.
#![tactic(auto)]

ghost use Rattle.std.specs.Prelude.{◌≡◌, ◌+◌, ◌^◌, ◌≤◌, ◌<◌, max, length};
ghost use Rattle.model.specs.Layout.{sequence_size};
ghost use Rattle.model.specs.Tops.{raise_top};
ghost use Rattle.message_sequence.specs.Sequence.{sequence_number};
ghost use Rattle.set_table.specs.Table.{insert_at};
ghost use Rattle.set_tops.specs.TopsIn.{most_tops, tops_room, tops_in};
ghost use Rattle.set_tops.specs.Raising.{PlaceOf, on_line};

use buffer_writes::copy_at;
use layout::{CAPACITY, MOST_FLOORS, SEQUENCE_SIZE};
use message_sequence::{Sequence, less, line_below, put_sequence, read_sequence, same_line};

// The room of the most tops: an image's floors, and one more for each delta of its log.
pub const TOPS_ROOM: usize = SEQUENCE_SIZE * (MOST_FLOORS + CAPACITY);

// The higher of two sequences.
fn higher(a: Sequence, b: Sequence) -> Sequence
    ensures { sequence_number result ≡ max (sequence_number a) (sequence_number b) }
{
    if less(a, b) { b } else { a }
}

// The place of the first top that is on no lower line than a sequence, or the place past all `count` of them.
#[tactic(auto, using(crate::proofs::Passed::passing))]
fn top_place(tops: &[u8], count: usize, s: Sequence) -> usize
    requires { (count ≤ most_tops) × (tops_room ≤ length tops.now) }
    ensures { PlaceOf (sequence_number s) (tops_in tops.now count) result }
{
    for p in 0..count {
        let top = read_sequence(tops, SEQUENCE_SIZE * p);
        if !line_below(top, s) {
            return p;
        }
    }
    count
}

// Whether the top at a place, if there is one, is on the line of a sequence.
fn is_on_line(tops: &[u8], count: usize, p: usize, s: Sequence) -> bool
    requires { (count ≤ most_tops) × (tops_room ≤ length tops.now) }
    ensures { result ≡ on_line (sequence_number s) (tops_in tops.now count) p }
{
    if count <= p {
        return false;
    }
    let top = read_sequence(tops, SEQUENCE_SIZE * p);
    same_line(top, s)
}

// Puts a sequence in at a place; the tops from the place on move one on.
fn insert_top(tops: &mut [u8], count: usize, p: usize, s: Sequence)
    requires { (count < most_tops) × (p ≤ count) × (tops_room ≤ length tops.old) × (sequence_number s < 256 ^ sequence_size) }
    ensures { tops_in tops.new (count + 1) ≡ insert_at p (sequence_number s) (tops_in tops.old count) }
{
    let at = SEQUENCE_SIZE * p;
    let size = SEQUENCE_SIZE * (count - p);
    let mut behind = [0u8; TOPS_ROOM];
    copy_at(&mut behind, 0, &tops[at..], size);
    copy_at(tops, at + SEQUENCE_SIZE, &behind, size);
    put_sequence(tops, at, s);
}

// Raises the top of a sequence's line to it, unless that is higher; a line that has none gets one. Answers how many there are now.
pub fn raise_top(tops: &mut [u8], count: usize, s: Sequence) -> usize
    requires { (count < most_tops) × (tops_room ≤ length tops.old) × (sequence_number s < 256 ^ sequence_size) }
    ensures { tops_in tops.new result ≡ raise_top (sequence_number s) (tops_in tops.old count) }
{
    let p = top_place(tops, count, s);
    if is_on_line(tops, count, p, s) {
        let top = read_sequence(tops, SEQUENCE_SIZE * p);
        put_sequence(tops, SEQUENCE_SIZE * p, higher(s, top));
        return count;
    }
    insert_top(tops, count, p, s);
    count + 1
}
