// The first deltas of a log dropped, or code 16 where too many floors would result.
#![tactic(auto)]

ghost use Rattle.std.specs.Prelude.{◌≡◌, not, length, ltb};
ghost use Rattle.model.specs.Layout.{most_floors};
ghost use Rattle.model.specs.Calls as model;
ghost use Rattle.refusals.specs.Refusals.{checked};
ghost use Rattle.refusals.specs.declared.Refusal.TheVariants.{ManyFloors};
ghost use Rattle.purge_dropping.specs.PurgeAnswer.{purged_by};
ghost use Rattle.purge_dropping.specs.Dropping.{Droppable};

use layout::MOST_FLOORS;
use purge_floors::raise_floors;
use purge_rest::find_rest;
use purge_writing::write_purged;
use refusals::Refusal;
use set_tops::TOPS_ROOM;

// Code 16: an image has room for so many floors.
fn check_floors(floors: usize) -> Result<(), Refusal>
    ensures { result ≡ checked ManyFloors (not (ltb most_floors floors)) }
{
    if MOST_FLOORS < floors {
        return Err(Refusal::ManyFloors);
    }
    Ok(())
}

// Drops the deltas at the given places, the first of the log, unless too many floors would result. The pool is a copy of the image.
// Everything is found before anything is written.
pub fn drop_first(image: &mut [u8], pool: &[u8], starts: &[u16], gone: &[u8]) -> Result<(), Refusal>
    requires { Droppable image.old pool.now starts.now gone.now }
    ensures { purged_by result image.new ≡ model.purge image.old (length gone.now) }
{
    let mut tops = [0u8; TOPS_ROOM];
    let floors = raise_floors(&mut tops, pool, starts, gone);
    let Ok(()) = check_floors(floors) else {
        return Err(Refusal::ManyFloors);
    };
    let rest = find_rest(pool, starts, gone);
    write_purged(image, pool, &tops, floors, gone.len(), rest);
    Ok(())
}
