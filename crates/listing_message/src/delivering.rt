// One message delivered, and what its line says.
ghost use Rattle.std.specs.Prelude.{◌≡◌, ◌+◌, ◌≤◌, length};
ghost use Rattle.listing_lines.specs.Rooms.{line_room};
ghost use Rattle.listing_message.specs.Outcome.{outcome_by, Answers, Listed};

use deliver::delivery::deliver;
use deliver_accepting::Counts;
use layout::STEP_ROOM;
use listing_lines::printing::put_line;
use refusals::Refusal;

// The numbers of a message's line.
#[derive(Clone, Copy)]
pub struct Outcome {
    pub code: usize,
    pub undos: usize,
    pub executions: usize,
}

// The code and the counts of what deliver answered.
#[tactic(auto, unfolding(crate::specs::Outcome::outcome_by))]
fn outcome_of(delivered: Result<Counts, Refusal>) -> Outcome
    ensures { result ≡ outcome_by delivered }
{
    match delivered {
        Ok(counts) => Outcome {
            code: 0,
            undos: counts.undos,
            executions: counts.executions,
        },
        Err(why) => Outcome {
            code: why.code() as usize,
            undos: 0,
            executions: 0,
        },
    }
}

// Delivers a message to the image, with a step buffer of zeros.
fn answer(image: &mut [u8], message: &[u8]) -> Outcome
    ensures { Answers image.old message.now result image.new }
{
    let mut steps = [0u8; STEP_ROOM];
    let delivered = deliver(image, message, &mut steps);
    outcome_of(delivered)
}

// Delivers a message and writes its line from a place on; answers the place behind it.
pub fn list_message(
    image: &mut [u8],
    message: &[u8],
    out: &mut [u8],
    at: usize,
    number: usize,
) -> usize
    requires { at + line_room ≤ length out.old }
    ensures { Listed image.old message.now out.old at number result image.new out.new }
{
    let outcome = answer(image, message);
    put_line(
        out,
        at,
        number,
        outcome.code,
        outcome.undos,
        outcome.executions,
    )
}
