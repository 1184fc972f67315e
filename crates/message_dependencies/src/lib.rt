// The dependencies of a message, and the checks of codes 4 and 5.
#![tactic(auto)]

ghost use Rattle.std.specs.Prelude.{◌≡◌, ◌≤◌, ◌<◌, length, get_or};
ghost use Rattle.model.specs.Lists.{has, every, ascending};
ghost use Rattle.model.specs.Message.{dependency_count, commands_start, dependencies_of, numbered, numbers_right, dependencies_right};
ghost use Rattle.message_sequence.specs.Sequence.{sequence_number};
ghost use Rattle.refusals.specs.Refusals.{checked};
ghost use Rattle.refusals.specs.declared.Refusal.TheVariants.{WrongDependencies, WrongNumber};

use buffer_reads::byte;
use layout::{DEPENDENCY_COUNT_AT, HEADER_SIZE, SEQUENCE_AT, SEQUENCE_SIZE};
use message_sequence::{Sequence, equal, less, number_of, predecessor_of, read_sequence};
use refusals::Refusal;

// A message's dependency at a place.
pub fn dependency(m: &[u8], k: usize) -> Sequence
    requires { (k < dependency_count m.now) × (commands_start (dependency_count m.now) ≤ length m.now) }
    ensures { sequence_number result ≡ get_or (dependencies_of m.now) k 0 }
{
    read_sequence(m, HEADER_SIZE + SEQUENCE_SIZE * k)
}

// Whether a message names a sequence among its dependencies.
pub fn depends_on(m: &[u8], s: Sequence) -> bool
    requires { commands_start (dependency_count m.now) ≤ length m.now }
    ensures { result ≡ has (sequence_number s) (dependencies_of m.now) }
{
    let count = byte(m, DEPENDENCY_COUNT_AT) as usize;
    (0..count).any(|k| equal(s, dependency(m, k)))
}

// Whether the dependencies ascend strictly.
fn ascends(m: &[u8]) -> bool
    requires { commands_start (dependency_count m.now) ≤ length m.now }
    ensures { result ≡ ascending (dependencies_of m.now) }
{
    let count = byte(m, DEPENDENCY_COUNT_AT) as usize;
    (1..count).all(|k| less(dependency(m, k - 1), dependency(m, k)))
}

// Whether no dependency has the number 0000.
fn all_numbered(m: &[u8]) -> bool
    requires { commands_start (dependency_count m.now) ≤ length m.now }
    ensures { result ≡ every numbered (dependencies_of m.now) }
{
    let count = byte(m, DEPENDENCY_COUNT_AT) as usize;
    (0..count).all(|k| number_of(dependency(m, k)) != 0)
}

// Code 4: no sequence number is 0000.
#[tactic(auto, unfolding(model::specs::Message::numbers_right))]
pub fn check_numbers(m: &[u8]) -> Result<(), Refusal>
    requires { commands_start (dependency_count m.now) ≤ length m.now }
    ensures { result ≡ checked WrongNumber (numbers_right m.now) }
{
    if number_of(read_sequence(m, SEQUENCE_AT)) == 0 || !all_numbered(m) {
        return Err(Refusal::WrongNumber);
    }
    Ok(())
}

// Code 5: dependencies strictly ascending, none the delta's own or its predecessor.
#[tactic(auto, unfolding(model::specs::Message::dependencies_right))]
pub fn check_dependencies(m: &[u8]) -> Result<(), Refusal>
    requires { commands_start (dependency_count m.now) ≤ length m.now }
    ensures { result ≡ checked WrongDependencies (dependencies_right m.now) }
{
    let own = read_sequence(m, SEQUENCE_AT);
    if !ascends(m) || depends_on(m, own) || predecessor_of(own).is_some_and(|p| depends_on(m, p)) {
        return Err(Refusal::WrongDependencies);
    }
    Ok(())
}
