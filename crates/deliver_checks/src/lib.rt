// The checks of codes 7 and 8: what is present under a message's sequence, and room for one more.
#![tactic(auto)]

ghost use Rattle.std.specs.Prelude.{◌≡◌, not, ltb};
ghost use Rattle.model.specs.Layout.{capacity};
ghost use Rattle.model.specs.Message.{sequence_of};
ghost use Rattle.model.specs.Codes.{conflicts};
ghost use Rattle.refusals.specs.Refusals.{checked};
ghost use Rattle.refusals.specs.declared.Refusal.TheVariants.{Conflict, Full};
ghost use Rattle.set_table.specs.Table.{set_in, Holds};
ghost use Rattle.set_table.specs.Places.{Finds};

use buffer_reads::same;
use layout::CAPACITY;
use refusals::Refusal;
use set_table::entry::message_at;

// Code 7: what is present under the message's sequence has its bytes. The place is where that sequence was looked for.
#[tactic(auto, using(crate::specs::RepeatLaws::present_conflicts))]
pub fn check_repeat(
    pool: &[u8],
    starts: &[u16],
    place: Result<usize, usize>,
    message: &[u8],
) -> Result<(), Refusal>
    requires { Holds pool.now starts.now × Finds pool.now starts.now (sequence_of message.now) place }
    ensures { result ≡ checked Conflict (not (conflicts (set_in pool.now starts.now) message.now)) }
{
    let Ok(i) = place else {
        return Ok(());
    };
    if !same(message_at(pool, starts, i), message) {
        return Err(Refusal::Conflict);
    }
    Ok(())
}

// Code 8: a station with this many messages has room for one more.
pub fn check_room(count: usize) -> Result<(), Refusal>
    ensures { result ≡ checked Full (ltb count capacity) }
{
    if CAPACITY <= count {
        return Err(Refusal::Full);
    }
    Ok(())
}
