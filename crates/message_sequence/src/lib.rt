// Sequences as two numbers: read, written, compared, and taken apart into line, number and predecessor.
#![tactic(auto)]

ghost use Rattle.std.specs.Prelude.{◌≡◌, ◌+◌, ◌≤◌, length, eqb, ltb};
ghost use Rattle.std.proofs.Math.Seq.{paste};
ghost use Rattle.model.specs.Bytes.{field, bytes};
ghost use Rattle.model.specs.Layout.{sequence_size};
ghost use Rattle.model.specs.Message.{number_of, line_of, predecessor_of};
ghost use Rattle.message_sequence.specs.Sequence.{sequence_number, predecessor_list};

use buffer_reads::{get_u32, get_u64};
use buffer_writes::{put_u32, put_u64};
use layout::NUMBERS_OF_LINE;

// The twelve bytes of a sequence: the first eight, and the last four. In this order of the fields they compare as its number does.
#[derive(Clone, Copy, PartialEq, Eq, PartialOrd, Ord)]
pub struct Sequence {
    pub high: u64,
    pub low: u32,
}

// The sequence that stands at a place.
#[tactic(auto, using(buffer_reads::specs::FieldLaws::field_split))]
pub fn read_sequence(s: &[u8], at: usize) -> Sequence
    requires { at + sequence_size ≤ length s.now }
    ensures { sequence_number result ≡ field s.now at sequence_size }
{
    let high = get_u64(s, at);
    let low = get_u32(s, at + 8);
    Sequence { high, low }
}

// Writes a sequence from a place on.
#[tactic(auto, using(crate::specs::SequenceLaws::sequence_written))]
pub fn put_sequence(b: &mut [u8], at: usize, s: Sequence)
    requires { at + sequence_size ≤ length b.old }
    ensures { b.new ≡ paste b.old at (bytes sequence_size (sequence_number s)) sequence_size }
{
    put_u64(b, at, s.high);
    put_u32(b, at + 8, s.low);
}

// Whether one sequence is below another.
pub fn less(a: Sequence, b: Sequence) -> bool
    ensures { result ≡ ltb (sequence_number a) (sequence_number b) }
{
    // by hand and in branches: the derived `<` goes through an Ordering, and of one condition the compiler makes no branch, so that
    // each step of a search waits for the one before it
    if a.high < b.high {
        return true;
    }
    if b.high < a.high {
        return false;
    }
    a.low < b.low
}

// Whether two sequences are equal.
pub fn equal(a: Sequence, b: Sequence) -> bool
    ensures { result ≡ eqb (sequence_number a) (sequence_number b) }
{
    a == b
}

// The number of a sequence on its line.
pub fn number_of(s: Sequence) -> u32
    ensures { result ≡ number_of (sequence_number s) }
{
    s.low % NUMBERS_OF_LINE
}

// Whether two sequences are on the same line.
pub fn same_line(a: Sequence, b: Sequence) -> bool
    ensures { result ≡ eqb (line_of (sequence_number a)) (line_of (sequence_number b)) }
{
    a.high == b.high && a.low / NUMBERS_OF_LINE == b.low / NUMBERS_OF_LINE
}

// Whether a sequence's line is below another's.
pub fn line_below(a: Sequence, b: Sequence) -> bool
    ensures { result ≡ ltb (line_of (sequence_number a)) (line_of (sequence_number b)) }
{
    !same_line(a, b) && less(a, b)
}

// The same line with number one less; number 0001 has none.
pub fn predecessor_of(s: Sequence) -> Option<Sequence>
    ensures { predecessor_list result ≡ predecessor_of (sequence_number s) }
{
    if number_of(s) <= 1 {
        return None;
    }
    let low = s.low - 1;
    Some(Sequence { high: s.high, low })
}
