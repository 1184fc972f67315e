// From where on a delta was ready, and whether something waits to be placed.
ghost use Rattle.std.specs.Prelude.{◌≡◌, length};
ghost use Rattle.set_needs.specs.Rows.{RowFits};
ghost use Rattle.set_readiness.specs.Ready.{marks_size};
ghost use Rattle.log_check.specs.Waiting.{ready_from, AllFit, AnyReady};

use set_readiness::{greatest_along, ready};

// The place from which a delta was ready: behind all that it needs, by `ends`, which has for each delta one more than its place.
pub fn ready_from(rows: &[u8], counts: &[u8], ends: &[u32], i: usize) -> u32
    requires { RowFits rows.now counts.now i × (length ends.now ≡ marks_size) }
    ensures { result ≡ ready_from rows.now counts.now ends.now i }
{
    greatest_along(rows, counts, ends, i, 0)
}

// Whether one of the first `count` deltas is ready.
pub fn any_ready(rows: &[u8], counts: &[u8], placed: &[u8], count: usize) -> bool
    requires { AllFit rows.now counts.now count × (length placed.now ≡ marks_size) }
    ensures { AnyReady rows.now counts.now placed.now count result }
{
    for i in 0..count {
        if ready(rows, counts, placed, i) {
            return true;
        }
    }
    false
}
