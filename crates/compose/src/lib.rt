// The call `compose`.
#![tactic(auto)]

ghost use Rattle.std.specs.Prelude.{◌≡◌};
ghost use Rattle.model.specs.Bytes.{number};
ghost use Rattle.model.specs.Image.{state_in};
ghost use Rattle.model.specs.Calls as model;
ghost use Rattle.image_judged.specs.Judging.{IsStation};
ghost use Rattle.compose_message.specs.Answer.{composed_by};
ghost use Rattle.compose_message.specs.Stages.{Composable, late_answer};

use compose_checks::{check_content, check_sizes};
use compose_message::compose_behind;
use image_judged::judging::read_station;
use image_listed::Station;
use message_commands::commands_sized;
use refusals::Refusal;

// Composes at a judged station.
#[tactic(auto, using(crate::proofs::Stations::stations))]
fn compose_at(
    image: &[u8],
    station: Station,
    line: &[u8],
    commands: &[u8],
    flag: u32,
    priority: u32,
    message: &mut [u8],
) -> Result<usize, Refusal>
    requires { IsStation image.now station × Composable line.now commands.now flag priority message.old }
    ensures { composed_by result message.new ≡ late_answer (state_in image.now) (number line.now) commands.now flag priority message.old }
{
    let table = station.table;
    compose_behind(
        image,
        &table.starts[..table.count],
        &station.places[..station.logged],
        line,
        commands,
        flag,
        priority,
        message,
    )
}

// Composes a message on a line: it stands at the front of its buffer, the rest unchanged. A refusal writes nothing.
#[tactic(auto, using(crate::proofs::Refused::refused))]
pub fn compose(
    image: &[u8],
    line: &[u8],
    commands: &[u8],
    flag: u32,
    priority: u32,
    message: &mut [u8],
) -> Result<usize, Refusal>
    ensures { composed_by result message.new ≡ model.compose image.now line.now commands.now flag priority message.old }
{
    let Ok(()) = check_sizes(image.len(), message.len(), line.len()) else {
        return Err(Refusal::WrongSize);
    };
    let Ok(station) = read_station(image) else {
        return Err(Refusal::NoImage);
    };
    let Ok(()) = commands_sized(commands) else {
        return Err(Refusal::WrongLayout);
    };
    let Ok(()) = check_content(commands, flag, priority) else {
        return Err(Refusal::WrongContent);
    };
    compose_at(image, station, line, commands, flag, priority, message)
}
