// Where the messages of an image start: past the header, the values and the floors. Reading and writing take it from here.
ghost use Rattle.std.specs.Prelude.{◌≡◌, ◌≤◌, length};
ghost use Rattle.model.specs.Layout.{floors_start};
ghost use Rattle.model.specs.Image.{messages_start_in};

use layout::{FLOORS_START, SEQUENCE_SIZE};
use set_floors::count_floors;

// Of the image that a pool begins with.
pub fn messages_start(pool: &[u8]) -> usize
    requires { floors_start ≤ length pool.now }
    ensures { result ≡ messages_start_in pool.now }
{
    FLOORS_START + SEQUENCE_SIZE * count_floors(pool)
}
