// What a message needs, as sequences: its predecessor, where it has one, and then its dependencies.
ghost use Rattle.std.specs.Prelude.{◌≡◌, ◌<◌, T, length, get_or};
ghost use Rattle.model.specs.Message.{needs_of, passes};
ghost use Rattle.message_sequence.specs.Sequence.{sequence_number};

use buffer_reads::byte;
use layout::{DEPENDENCY_COUNT_AT, SEQUENCE_AT};
use message_dependencies::dependency;
use message_sequence::{Sequence, predecessor_of, read_sequence};

// How many sequences a message needs.
#[tactic(auto, using(crate::proofs::Needing::needing))]
pub fn count_needs(m: &[u8]) -> usize
    requires { T (passes m.now) }
    ensures { result ≡ length (needs_of m.now) }
{
    let dependencies = byte(m, DEPENDENCY_COUNT_AT) as usize;
    let before = predecessor_of(read_sequence(m, SEQUENCE_AT));
    let Some(_) = before else {
        return dependencies;
    };
    dependencies + 1
}

// One of the sequences that a message needs.
#[tactic(auto, using(crate::proofs::Needing::needing))]
pub fn need_of(m: &[u8], k: usize) -> Sequence
    requires { T (passes m.now) × (k < length (needs_of m.now)) }
    ensures { sequence_number result ≡ get_or (needs_of m.now) k 0 }
{
    let before = predecessor_of(read_sequence(m, SEQUENCE_AT));
    let Some(p) = before else {
        return dependency(m, k);
    };
    if k == 0 {
        return p;
    }
    dependency(m, k - 1)
}
