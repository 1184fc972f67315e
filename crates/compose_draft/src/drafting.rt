// A new delta's sequence, group and block, where none passes its limit.
ghost use Rattle.std.specs.Prelude.{◌≡◌, eqb};
ghost use Rattle.model.specs.Message.{line_of, number_of};
ghost use Rattle.message_sequence.specs.Sequence.{sequence_number};
ghost use Rattle.set_table.specs.Table.{set_in};
ghost use Rattle.image_sections.specs.LogPlaces.{LogPlaces};
ghost use Rattle.compose_draft.specs.Drafting.{priority_by, Drafts};

use compose_numbering::block::new_block;
use compose_numbering::group::new_group;
use compose_numbering::number::new_number;
use layout::{FIELD_LIMIT, NUMBERS_OF_LINE};
use message_header::header::Priority;
use message_sequence::Sequence;
use refusals::Refusal;

// What a new delta has from the log, and its priority.
#[derive(Clone, Copy)]
pub struct Draft {
    pub sequence: Sequence,
    pub group: u32,
    pub priority: Option<Priority>,
}

// Block and priority where the flag is set.
fn priority_of(flag: u32, block: u32, priority: u32) -> Option<Priority>
    ensures { result ≡ priority_by (eqb flag 1) block priority }
{
    if flag != 1 {
        return None;
    }
    Some(Priority { block, priority })
}

// Code 10: number, block and group within their limits. `places` are the log's.
#[tactic(auto, using(crate::proofs::Drafted::drafted))]
pub fn draft_delta(
    pool: &[u8],
    starts: &[u16],
    places: &[u8],
    line: Sequence,
    flag: u32,
    priority: u32,
) -> Result<Draft, Refusal>
    requires { LogPlaces pool.now starts.now places.now × (number_of (sequence_number line) ≡ 0) }
    ensures { Drafts (set_in pool.now starts.now) (line_of (sequence_number line)) flag priority result }
{
    let number = new_number(pool, starts, places, line);
    if NUMBERS_OF_LINE <= number {
        return Err(Refusal::PastLimit);
    }
    let block = new_block(pool, starts, places, flag);
    if FIELD_LIMIT < block {
        return Err(Refusal::PastLimit);
    }
    let sequence = Sequence {
        high: line.high,
        low: line.low + number,
    };
    let group = new_group(pool, starts, places, sequence);
    if FIELD_LIMIT < group {
        return Err(Refusal::PastLimit);
    }
    let given = priority_of(flag, block, priority);
    Ok(Draft {
        sequence,
        group,
        priority: given,
    })
}
