// The check of an origin, before anything else of an image is read: of an image without floors one pass over its base values.
ghost use Rattle.std.specs.Prelude.{◌≡◌, length};
ghost use Rattle.model.specs.Layout.{image_size};
ghost use Rattle.model.specs.Order.{origin_right};
ghost use Rattle.model.specs.Image.{origin_in};
ghost use Rattle.refusals.specs.Refusals.{checked};
ghost use Rattle.refusals.specs.declared.Refusal.TheVariants.{NoImage};
ghost use Rattle.image_origin.specs.Origins.{Counted, purged_right};

use crate::floors::check_floors;
use crate::purged::{check_base, check_limits};
use crate::zeros::check_unpurged;
use layout::MOST_FLOORS;
use refusals::Refusal;
use set_floors::count_floors;

// Floors, and what goes with them.
#[tactic(auto, unfolding(crate::specs::Origins::purged_right), using(crate::specs::OriginParts::counted_start))]
fn check_purged(b: &[u8], count: usize) -> Result<(), Refusal>
    requires { Counted b.now count }
    ensures { result ≡ checked NoImage (purged_right b.now) }
{
    check_floors(b, count)?;
    check_base(b)?;
    check_limits(b)
}

// What the log of a buffer of an image's size starts from.
#[tactic(auto, using(crate::proofs::Parts::parts))]
pub fn check_origin(b: &[u8]) -> Result<(), Refusal>
    requires { length b.now ≡ image_size }
    ensures { result ≡ checked NoImage (origin_right (origin_in b.now)) }
{
    let count = count_floors(b);
    if MOST_FLOORS < count {
        return Err(Refusal::NoImage);
    }
    if count == 0 {
        return check_unpurged(b);
    }
    check_purged(b, count)
}
