// The places of a table after a start was put in.
ghost use Rattle.std.specs.Prelude.{◌≡◌, map, ◌<◌, ◌≤◌, take};
ghost use Rattle.model.specs.Layout.{capacity};
ghost use Rattle.set_table.specs.Places.{AllBelow};
ghost use Rattle.set_table.specs.Shifting.{shifted};

use layout::CAPACITY;

// A place after a start was put in at p: one more from p on.
fn shift_place(place: u8, p: usize) -> u8
    requires { place < capacity }
    ensures { result ≡ shifted p place }
{
    if p <= place as usize {
        place + 1
    } else {
        place
    }
}

// The first count places after a start was put in at p.
#[tactic(auto, using(crate::proofs::Shifted::shifting))]
pub fn shift_places(places: [u8; CAPACITY], count: usize, p: usize) -> [u8; CAPACITY]
    requires { (count ≤ capacity) × AllBelow capacity (take count places) }
    ensures { take count result ≡ map (shifted p) (take count places) }
{
    let mut moved = places;
    for place in moved[..count].iter_mut() {
        *place = shift_place(*place, p);
    }
    moved
}
