// A delta run, and its step of 80 bytes: its head, its pairs, zeros behind them.
#![tactic(auto)]

ghost use Rattle.std.specs.Prelude.{◌≡◌, ◌∷◌, ◌++◌, ◌+◌, ◌*◌, ◌-◌, ◌≤◌, T, length, replicate};
ghost use Rattle.std.proofs.Math.Seq.{paste};
ghost use Rattle.model.specs.Bytes.{bytes};
ghost use Rattle.model.specs.Layout.{most_commands, sequence_size, pair_count_size, step_sequence_at, pairs_at, pair_size, pairs_size, step_size};
ghost use Rattle.model.specs.Message.{command_count, sequence_of, passes};
ghost use Rattle.model.specs.Setpoints.{run_delta};
ghost use Rattle.model.specs.Steps.{record_bytes};
ghost use Rattle.message_sequence.specs.Sequence.{sequence_number};
ghost use Rattle.step_records.specs.Frame.{framed};
ghost use Rattle.step_records.specs.Records.{first_by, record_by};

use buffer_reads::byte;
use buffer_writes::put_u32;
use layout::{
    COMMAND_COUNT_AT, MOST_COMMANDS, PAIR_SIZE, PAIRS_AT, PAIRS_SIZE, SEQUENCE_AT,
    STEP_SEQUENCE_AT, TAG_COUNT,
};
use message_sequence::{Sequence, put_sequence, read_sequence};
use setpoints::run_delta;
use setpoints_changes::Change;
use step_pairs::kinds::Kind;
use step_pairs::put_pairs;

// the first byte of a step
const UNDO: u8 = 1;

const EXECUTE: u8 = 2;

// what the first byte counts for in the number of the first four: the other three hold the count of pairs
const KIND_UNIT: u32 = 0x0100_0000;

// Writes what stands before the pairs: the number of the first four bytes, and the sequence.
fn put_head(steps: &mut [u8], at: usize, first: u32, s: Sequence)
    requires { at + pairs_at ≤ length steps.old }
    ensures { steps.new ≡ paste steps.old at (bytes step_sequence_at first ++ bytes sequence_size (sequence_number s)) pairs_at }
{
    put_u32(steps, at, first);
    put_sequence(steps, at + STEP_SEQUENCE_AT, s);
}

// Clears the pairs behind so many, of those that start at a place.
fn clear_unused(steps: &mut [u8], at: usize, count: usize)
    requires { (count ≤ most_commands) × (at + pairs_size ≤ length steps.old) }
    ensures { steps.new ≡ paste steps.old (at + pair_size * count) (replicate pairs_size 0) (pairs_size - pair_size * count) }
{
    let used = PAIR_SIZE * count;
    steps[at + used..at + PAIRS_SIZE].fill(0);
}

// Writes all of a delta's step but its pairs: what stands before them, and zeros behind them.
fn put_frame(steps: &mut [u8], at: usize, kind: u8, m: &[u8])
    requires { (at + step_size ≤ length steps.old) × T (passes m.now) }
    ensures { steps.new ≡ framed steps.old at (kind ∷ bytes pair_count_size (command_count m.now) ++ bytes sequence_size (sequence_of m.now)) (command_count m.now) }
{
    let count = byte(m, COMMAND_COUNT_AT);
    let s = read_sequence(m, SEQUENCE_AT);
    put_head(steps, at, (kind as u32) * KIND_UNIT + count, s);
    clear_unused(steps, at + PAIRS_AT, count as usize);
}

// The first byte of a step of this kind.
fn first_byte(kind: Kind) -> u8
    ensures { result ≡ first_by kind }
{
    match kind {
        Kind::Undo => UNDO,
        Kind::Execute => EXECUTE,
    }
}

// Runs a delta, and writes its step of this kind: of the changes that its commands make of the values.
pub fn put_record(
    steps: &mut [u8],
    at: usize,
    kind: Kind,
    values: [i32; TAG_COUNT],
    m: &[u8],
) -> [i32; TAG_COUNT]
    requires { (at + step_size ≤ length steps.old) × T (passes m.now) }
    ensures { (result ≡ run_delta m.now values) × (steps.new ≡ paste steps.old at (record_bytes (record_by kind m.now values)) step_size) }
{
    let mut changes = [Change::default(); MOST_COMMANDS];
    let next = run_delta(values, m, &mut changes);
    put_frame(steps, at, first_byte(kind), m);
    let count = byte(m, COMMAND_COUNT_AT) as usize;
    put_pairs(steps, at + PAIRS_AT, kind, &changes[..count]);
    next
}
