// A draft becomes a message: its dependencies are found, and it is written.
ghost use Rattle.std.specs.Prelude.{◌≡◌, Ok, leb};
ghost use Rattle.model.specs.Layout.{most_dependencies};
ghost use Rattle.refusals.specs.Refusals.{checked};
ghost use Rattle.refusals.specs.declared.Refusal.TheVariants.{ManyDependencies};
ghost use Rattle.set_table.specs.Table.{set_in};
ghost use Rattle.compose_message.specs.Answer.{composed_by};
ghost use Rattle.compose_message.specs.Stages.{draft_answer, drafted_answer, Draftable, Nameable};

use compose_dependencies::{Dependencies, find_dependencies};
use compose_draft::drafting::Draft;
use compose_writing::write_message;
use layout::{COMMAND_SIZE, MOST_DEPENDENCIES};
use message_header::header::Header;
use refusals::Refusal;

// Code 11: at most eight dependencies.
fn check_few(count: usize) -> Result<(), Refusal>
    ensures { result ≡ checked ManyDependencies (leb count most_dependencies) }
{
    if MOST_DEPENDENCIES < count {
        return Err(Refusal::ManyDependencies);
    }
    Ok(())
}

// Writes the message of a draft with its dependencies, and answers its length.
#[tactic(auto, using(crate::proofs::Drafts::naming))]
fn write_drafted(
    pool: &[u8],
    starts: &[u16],
    draft: Draft,
    found: Dependencies,
    commands: &[u8],
    message: &mut [u8],
) -> usize
    requires { Nameable pool.now starts.now draft found commands.now message.old }
    ensures { composed_by (Ok result) message.new ≡ drafted_answer (set_in pool.now starts.now) draft commands.now message.old }
{
    let header = Header {
        sequence: draft.sequence,
        group: draft.group,
        dependencies: found.count,
        commands: commands.len() / COMMAND_SIZE,
        priority: draft.priority,
    };
    let places = &found.places[..found.count];
    write_message(message, header, pool, starts, places, commands)
}

// The message of a draft behind a log, whose places are given, where it has few enough dependencies.
#[tactic(auto, using(crate::proofs::Drafts::drafting))]
pub fn write_draft(
    pool: &[u8],
    starts: &[u16],
    places: &[u8],
    draft: Draft,
    commands: &[u8],
    message: &mut [u8],
) -> Result<usize, Refusal>
    requires { Draftable pool.now starts.now places.now commands.now message.old }
    ensures { composed_by result message.new ≡ draft_answer (set_in pool.now starts.now) draft commands.now message.old }
{
    let found = find_dependencies(pool, starts, places, draft.sequence);
    let Ok(()) = check_few(found.count) else {
        return Err(Refusal::ManyDependencies);
    };
    Ok(write_drafted(pool, starts, draft, found, commands, message))
}
