// The command runner: a delta's commands, run on 64 setpoints, and the change of each.
#![tactic(auto)]

ghost use Rattle.std.specs.Prelude.{◌≡◌, ◌≤◌, ◌/◌, T, map, length, take};
ghost use Rattle.model.specs.Layout.{command_size, most_commands};
ghost use Rattle.model.specs.Message.{command_count, passes};
ghost use Rattle.model.specs.Setpoints.{run_commands, changes_by, run_delta, changes_of};
ghost use Rattle.setpoints_changes.specs.Changes.{change_in};
ghost use Rattle.setpoints.specs.Commands.{commands_in};

use buffer_reads::byte;
use layout::{COMMAND_SIZE, DEPENDENCY_COUNT_AT, HEADER_SIZE, SEQUENCE_SIZE, TAG_COUNT};
use setpoints_changes::{Change, apply, change_of};

// Runs the commands of a slice from first to last, and keeps the change of each. A rest shorter than a command is left out.
fn run_commands(mut values: [i32; TAG_COUNT], c: &[u8], changes: &mut [Change]) -> [i32; TAG_COUNT]
    requires { length c.now / command_size ≤ length changes.old }
    ensures { (result ≡ run_commands (commands_in c.now) values) × (take (length c.now / command_size) (map change_in changes.new) ≡ changes_by (commands_in c.now) values) }
{
    for k in 0..c.len() / COMMAND_SIZE {
        let change = change_of(&values, c, COMMAND_SIZE * k);
        changes[k] = change;
        apply(&mut values, change);
    }
    values
}

// Runs a delta: its commands are its part past the dependencies.
pub fn run_delta(values: [i32; TAG_COUNT], m: &[u8], changes: &mut [Change]) -> [i32; TAG_COUNT]
    requires { T (passes m.now) × (most_commands ≤ length changes.old) }
    ensures { (result ≡ run_delta m.now values) × (take (command_count m.now) (map change_in changes.new) ≡ changes_of m.now values) }
{
    let dependencies = byte(m, DEPENDENCY_COUNT_AT) as usize;
    let from = HEADER_SIZE + SEQUENCE_SIZE * dependencies;
    run_commands(values, &m[from..], changes)
}
