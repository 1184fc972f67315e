// A message above its floor: codes 7 and 8, or taken in.
ghost use Rattle.std.specs.Prelude.{◌≡◌, not, length, T};
ghost use Rattle.model.specs.Message.{sequence_of};
ghost use Rattle.model.specs.Order.{purged};
ghost use Rattle.model.specs.Image.{state_in};
ghost use Rattle.model.specs.Calls as model;
ghost use Rattle.message_sequence.specs.Sequence.{sequence_number};
ghost use Rattle.deliver_taking.specs.Answer.{delivered_by};
ghost use Rattle.deliver_taking.specs.Taking.{Takeable};

use deliver_accepting::{Counts, accept};
use deliver_checks::{check_repeat, check_room};
use image_listed::Station;
use message_sequence::Sequence;
use refusals::Refusal;
use set_table::places::find;

// Codes 7 and 8, of a message that passes 3 to 6 and is above its floor. One that is present with equal bytes is accepted with no step; any
// other is taken in.
pub fn take_above(
    image: &mut [u8],
    message: &[u8],
    steps: &mut [u8],
    pool: &mut [u8],
    station: Station,
    s: Sequence,
) -> Result<Counts, Refusal>
    requires { Takeable image.old message.now (length steps.old) pool.old station × (sequence_number s ≡ sequence_of message.now)
        × T (not (purged (state_in image.old) (sequence_of message.now))) }
    ensures { delivered_by result image.new steps.new ≡ model.deliver image.old message.now steps.old }
{
    let table = station.table;
    let starts = table.starts;
    let count = table.count;
    let place = find(image, &starts[..count], s);
    let Ok(()) = check_repeat(image, &starts[..count], place, message) else {
        return Err(Refusal::Conflict);
    };
    let Err(p) = place else {
        return Ok(Counts {
            undos: 0,
            executions: 0,
        });
    };
    let Ok(()) = check_room(count) else {
        return Err(Refusal::Full);
    };
    Ok(accept(image, message, steps, pool, station, p))
}
