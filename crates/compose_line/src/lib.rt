// The line of a new delta, and code 9: whether a held delta is on it.
#![tactic(auto)]

ghost use Rattle.std.specs.Prelude.{◌≡◌, not, ◌*◌, length};
ghost use Rattle.model.specs.Bytes.{number};
ghost use Rattle.model.specs.Layout.{line_size, numbers_of_line};
ghost use Rattle.model.specs.Message.{line_of};
ghost use Rattle.model.specs.Codes.{held_on};
ghost use Rattle.message_sequence.specs.Sequence.{sequence_number};
ghost use Rattle.refusals.specs.Refusals.{checked};
ghost use Rattle.refusals.specs.declared.Refusal.TheVariants.{HeldLine};
ghost use Rattle.set_table.specs.Table.{deltas_of, deltas_at, set_in};
ghost use Rattle.image_sections.specs.LogPlaces.{TablePlaces, LogPlaces};
ghost use Rattle.compose_line.specs.Line.{some_on};

use buffer_reads::{get_u16, get_u64};
use image_sections::held::held_places;
use layout::NUMBERS_OF_LINE;
use message_sequence::{Sequence, same_line};
use refusals::Refusal;
use set_table::entry::sequence_at;

// A line as the sequence of its number 0000.
pub fn read_line(line: &[u8]) -> Sequence
    requires { length line.now ≡ line_size }
    ensures { sequence_number result ≡ number line.now * numbers_of_line }
{
    let high = get_u64(line, 0);
    let low = get_u16(line, 8) * NUMBERS_OF_LINE;
    Sequence { high, low }
}

// Whether a delta at one of the given places is on a line.
fn some_on(pool: &[u8], starts: &[u16], places: &[u8], line: Sequence) -> bool
    requires { TablePlaces pool.now starts.now places.now }
    ensures { result ≡ some_on (line_of (sequence_number line)) (deltas_at (deltas_of pool.now starts.now) places.now) }
{
    places.iter().any(|place| same_line(sequence_at(pool, starts, *place as usize), line))
}

// Code 9: no held delta is on the line. `places` are the log's.
#[tactic(auto, using(crate::proofs::HeldLine::held_line))]
pub fn check_line(pool: &[u8], starts: &[u16], places: &[u8], line: Sequence) -> Result<(), Refusal>
    requires { LogPlaces pool.now starts.now places.now }
    ensures { result ≡ checked HeldLine (not (held_on (set_in pool.now starts.now) (line_of (sequence_number line)))) }
{
    let held = held_places(starts.len(), places);
    if some_on(pool, starts, &held.places[..held.count], line) {
        return Err(Refusal::HeldLine);
    }
    Ok(())
}
