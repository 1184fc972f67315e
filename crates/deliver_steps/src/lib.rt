// The steps between two logs, as places of one table, each log run from where they part.
#![tactic(auto)]

ghost use Rattle.std.specs.Prelude.{◌≡◌, length, drop};
ghost use Rattle.model.specs.Setpoints.{start_values};
ghost use Rattle.model.specs.Steps.{along, records_of, records_bytes};
ghost use Rattle.model.specs.Calls.{written};
ghost use Rattle.set_table.specs.Table.{deltas_of, deltas_at, set_in};
ghost use Rattle.step_pairs.specs.Kinds.{listed_by};
ghost use Rattle.step_records.specs.Records.{record_by};
ghost use Rattle.deliver_steps.specs.Room.{records_at, RestFits, StepsFit};

use image_sections::placed::delta_at;
use image_sections::running::run_log;
use layout::{STEP_SIZE, TAG_COUNT};
use step_pairs::kinds::{Kind, place_of};
use step_records::put_record;

// Runs a log behind what is kept of it, which leaves the given values, and writes each delta's step of this kind. Undos are written
// from the last one down, so that the last delta's stands first.
fn put_records(
    steps: &mut [u8],
    at: usize,
    kind: Kind,
    pool: &[u8],
    starts: &[u16],
    log: &[u8],
    kept: usize,
    mut values: [i32; TAG_COUNT],
)
    requires { RestFits pool.now starts.now log.now kept at (length steps.old) }
    ensures { steps.new ≡ records_at steps.old at (listed_by kind (along (record_by kind) (deltas_at (deltas_of pool.now starts.now) (drop kept log.now)) values)) }
{
    for i in kept..log.len() {
        let m = delta_at(pool, starts, log, i);
        let place = place_of(kind, log.len() - kept, i - kept);
        let next = put_record(steps, at + STEP_SIZE * place, kind, values, m);
        values = next;
    }
}

// Writes the steps from the old log to the new one at the front of the buffer; kept is the length of their common start.
pub fn write_steps(
    steps: &mut [u8],
    pool: &[u8],
    starts: &[u16],
    old: &[u8],
    new: &[u8],
    kept: usize,
)
    requires { StepsFit pool.now starts.now old.now new.now kept (length steps.old) }
    ensures { steps.new ≡ written (records_bytes (records_of (start_values (set_in pool.now starts.now)) (deltas_at (deltas_of pool.now starts.now) old.now) (deltas_at (deltas_of pool.now starts.now) new.now))) steps.old }
{
    let values = run_log(pool, starts, &old[..kept]);
    put_records(steps, 0, Kind::Undo, pool, starts, old, kept, values);
    let undone = STEP_SIZE * (old.len() - kept);
    put_records(
        steps,
        undone,
        Kind::Execute,
        pool,
        starts,
        new,
        kept,
        values,
    );
}
