// A message that passes 3 to 6 at a judged station: codes 7 and 8, or taken in, or passed over at a floor; and what deliver answers.
#![tactic(auto)]

pub mod above;

ghost use Rattle.std.specs.Prelude.{◌≡◌, length};
ghost use Rattle.model.specs.Calls as model;
ghost use Rattle.deliver_taking.specs.Answer.{delivered_by};
ghost use Rattle.deliver_taking.specs.Taking.{Takeable};

use crate::above::take_above;
use deliver_accepting::Counts;
use image_listed::Station;
use layout::SEQUENCE_AT;
use message_sequence::read_sequence;
use refusals::Refusal;
use set_floors::is_purged;

// A message that passes 3 to 6. At or below its floor it is accepted with no step and changes nothing, and 7 and 8 are not looked for.
pub fn take_in(
    image: &mut [u8],
    message: &[u8],
    steps: &mut [u8],
    pool: &mut [u8],
    station: Station,
) -> Result<Counts, Refusal>
    requires { Takeable image.old message.now (length steps.old) pool.old station }
    ensures { delivered_by result image.new steps.new ≡ model.deliver image.old message.now steps.old }
{
    let s = read_sequence(message, SEQUENCE_AT);
    let low = is_purged(image, s);
    if low {
        return Ok(Counts {
            undos: 0,
            executions: 0,
        });
    }
    take_above(image, message, steps, pool, station, s)
}
