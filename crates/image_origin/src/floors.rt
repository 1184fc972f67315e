// The floors of an image: their lines ascend strictly, and no number is 0000.
ghost use Rattle.std.specs.Prelude.{◌≡◌, ◌&&◌, map};
ghost use Rattle.model.specs.Lists.{every, ascending};
ghost use Rattle.model.specs.Message.{line_of, numbered};
ghost use Rattle.model.specs.Image.{floors_in};
ghost use Rattle.refusals.specs.Refusals.{checked};
ghost use Rattle.refusals.specs.declared.Refusal.TheVariants.{NoImage};
ghost use Rattle.image_origin.specs.Origins.{Counted};

use message_sequence::{line_below, number_of};
use refusals::Refusal;
use set_floors::floor_at;

// Whether the lines ascend strictly: so no line has two floors.
fn lines_ascend(b: &[u8], count: usize) -> bool
    requires { Counted b.now count }
    ensures { result ≡ ascending (map line_of (floors_in b.now)) }
{
    (1..count).all(|k| line_below(floor_at(b, k - 1), floor_at(b, k)))
}

// Whether every floor has a number of at least 1.
fn all_numbered(b: &[u8], count: usize) -> bool
    requires { Counted b.now count }
    ensures { result ≡ every numbered (floors_in b.now) }
{
    (0..count).all(|k| number_of(floor_at(b, k)) != 0)
}

// All floors, of which there are `count`.
pub fn check_floors(b: &[u8], count: usize) -> Result<(), Refusal>
    requires { Counted b.now count }
    ensures { result ≡ checked NoImage (ascending (map line_of (floors_in b.now)) && every numbered (floors_in b.now)) }
{
    if !lines_ascend(b, count) {
        return Err(Refusal::NoImage);
    }
    if !all_numbered(b, count) {
        return Err(Refusal::NoImage);
    }
    Ok(())
}
