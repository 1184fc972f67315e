// The places of the held messages: all that are not the log's.
ghost use Rattle.std.specs.Prelude.{◌≤◌};
ghost use Rattle.model.specs.Layout.{capacity};
ghost use Rattle.image_sections.specs.LogPlaces.{HeldBelow};

use layout::CAPACITY;

// Places in ascending order: the first `count` of the array.
#[derive(Clone, Copy)]
pub struct Held {
    pub places: [u8; CAPACITY],
    pub count: usize,
}

// The places below a count that are not among the given ones.
#[tactic(auto, using(crate::proofs::Among::next_place))]
pub fn held_places(count: usize, places: &[u8]) -> Held
    requires { count ≤ capacity }
    ensures { HeldBelow count places.now result }
{
    let mut held = [0u8; CAPACITY];
    let mut n = 0;
    for place in 0..count as u8 {
        if !places.contains(&place) {
            held[n] = place;
            n += 1;
        }
    }
    Held {
        places: held,
        count: n,
    }
}
