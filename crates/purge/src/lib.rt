// The call `purge`.
#![tactic(auto)]

ghost use Rattle.std.specs.Prelude.{◌≡◌, not, ltb};
ghost use Rattle.model.specs.Calls as model;
ghost use Rattle.refusals.specs.Refusals.{checked};
ghost use Rattle.refusals.specs.declared.Refusal.TheVariants.{PastLog};
ghost use Rattle.purge_dropping.specs.PurgeAnswer.{purged_by};
ghost use Rattle.purge.specs.Judged.{Judged};

use buffer_sizes::check_image_size;
use image_judged::judging::read_and_copy;
use image_listed::Station;
use layout::IMAGE_SIZE;
use purge_dropping::drop_first;
use refusals::Refusal;

// Code 15: a log of so many deltas has the first k.
fn check_within(logged: usize, k: usize) -> Result<(), Refusal>
    ensures { result ≡ checked PastLog (not (ltb logged k)) }
{
    if logged < k {
        return Err(Refusal::PastLog);
    }
    Ok(())
}

// Purges at a judged station.
fn purge_at(image: &mut [u8], pool: &[u8], station: Station, k: usize) -> Result<(), Refusal>
    requires { Judged image.old pool.now station }
    ensures { purged_by result image.new ≡ model.purge image.old k }
{
    let Ok(()) = check_within(station.logged, k) else {
        return Err(Refusal::PastLog);
    };
    let table = station.table;
    let starts = table.starts;
    let count = table.count;
    let places = station.places;
    drop_first(image, pool, &starts[..count], &places[..k])
}

// Drops the first k log messages of an image: what they leave becomes what the rest starts from. A refusal writes nothing.
pub fn purge(image: &mut [u8], k: usize) -> Result<(), Refusal>
    ensures { purged_by result image.new ≡ model.purge image.old k }
{
    let Ok(()) = check_image_size(image.len()) else {
        return Err(Refusal::WrongSize);
    };
    let mut copy = [0u8; IMAGE_SIZE];
    let Ok(station) = read_and_copy(image, &mut copy) else {
        return Err(Refusal::NoImage);
    };
    purge_at(image, &copy, station, k)
}
