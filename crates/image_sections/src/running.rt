// The setpoints that a log, or the start of one, leaves.
ghost use Rattle.std.specs.Prelude.{◌≡◌, T};
ghost use Rattle.model.specs.Message.{passes};
ghost use Rattle.model.specs.Setpoints.{start_values, run_delta, run_log};
ghost use Rattle.set_table.specs.Table.{deltas_of, deltas_at, set_in};
ghost use Rattle.image_sections.specs.LogPlaces.{TablePlaces};

use crate::placed::delta_at;
use layout::{MOST_COMMANDS, TAG_COUNT};
use setpoints::run_delta;
use setpoints_changes::Change;
use setpoints_values::start_values;

// Runs a delta. The changes that its commands make are not asked for.
fn run_message(values: [i32; TAG_COUNT], m: &[u8]) -> [i32; TAG_COUNT]
    requires { T (passes m.now) }
    ensures { result ≡ run_delta m.now values }
{
    let mut changes = [Change::default(); MOST_COMMANDS];
    run_delta(values, m, &mut changes)
}

// Runs the deltas at the given places of a table, from first to last, on the values before any command.
pub fn run_log(pool: &[u8], starts: &[u16], places: &[u8]) -> [i32; TAG_COUNT]
    requires { TablePlaces pool.now starts.now places.now }
    ensures { result ≡ run_log (deltas_at (deltas_of pool.now starts.now) places.now) (start_values (set_in pool.now starts.now)) }
{
    let mut values = start_values(pool);
    for k in 0..places.len() {
        let m = delta_at(pool, starts, places, k);
        let next = run_message(values, m);
        values = next;
    }
    values
}
