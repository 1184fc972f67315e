// Compose's later codes, 9 to 11, and the message that it writes.
#![tactic(auto)]

pub mod drafted;

ghost use Rattle.std.specs.Prelude.{◌≡◌};
ghost use Rattle.model.specs.Bytes.{number};
ghost use Rattle.set_table.specs.Table.{set_in};
ghost use Rattle.image_sections.specs.LogPlaces.{LogPlaces};
ghost use Rattle.compose_message.specs.Answer.{composed_by};
ghost use Rattle.compose_message.specs.Stages.{Composable, late_answer};

use crate::drafted::write_draft;
use compose_draft::drafting::draft_delta;
use compose_line::{check_line, read_line};
use refusals::Refusal;

// Composes behind a log, whose places are given: codes 9 to 11, and the message.
#[tactic(auto, using(crate::proofs::Late::late))]
pub fn compose_behind(
    pool: &[u8],
    starts: &[u16],
    places: &[u8],
    line: &[u8],
    commands: &[u8],
    flag: u32,
    priority: u32,
    message: &mut [u8],
) -> Result<usize, Refusal>
    requires { LogPlaces pool.now starts.now places.now × Composable line.now commands.now flag priority message.old }
    ensures { composed_by result message.new ≡ late_answer (set_in pool.now starts.now) (number line.now) commands.now flag priority message.old }
{
    let first = read_line(line);
    let Ok(()) = check_line(pool, starts, places, first) else {
        return Err(Refusal::HeldLine);
    };
    let Ok(draft) = draft_delta(pool, starts, places, first, flag, priority) else {
        return Err(Refusal::PastLimit);
    };
    write_draft(pool, starts, places, draft, commands, message)
}
