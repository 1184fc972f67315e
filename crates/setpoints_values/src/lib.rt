// The 64 setpoints as a whole: those before any command, and how they are written.
#![tactic(auto)]

ghost use Rattle.std.specs.Prelude.{◌≡◌, List, ◌+◌, ◌*◌, ◌≤◌, length, T};
ghost use Rattle.std.proofs.Math.Seq.{paste};
ghost use Rattle.model.specs.Layout.{value_size, tag_count, values_size};
ghost use Rattle.model.specs.Message.{Message};
ghost use Rattle.model.specs.Order.{origin_right, holding};
ghost use Rattle.model.specs.Setpoints.{start_values};
ghost use Rattle.model.specs.Image.{values_at, origin_in};
ghost use Rattle.setpoints_values.specs.Words.{words_of};

use buffer_reads::get_u32;
use buffer_writes::put_u32;
use layout::{BASE_START, TAG_COUNT, VALUE_SIZE};
use set_floors::count_floors;
use setpoints_arithmetic::integers::{of_word, to_word};

// The 64 values from a place on.
fn values_at(b: &[u8], at: usize) -> [i32; TAG_COUNT]
    requires { at + values_size ≤ length b.now }
    ensures { result ≡ values_at at b.now }
{
    let mut values = [0; TAG_COUNT];
    for (tag, value) in values.iter_mut().enumerate() {
        *value = of_word(get_u32(b, at + VALUE_SIZE * tag));
    }
    values
}

// The values before any command, of the image that a pool begins with: the same whatever deltas it holds. Without a floor they are zero,
// and nothing has to be read.
pub fn start_values(pool: &[u8]) -> [i32; TAG_COUNT]
    requires { T (origin_right (origin_in pool.now)) }
    ensures { (l : List Message) → result ≡ start_values (holding (origin_in pool.now) l) }
{
    if count_floors(pool) == 0 {
        return [0; TAG_COUNT];
    }
    values_at(pool, BASE_START)
}

// Writes the values from a place on, four bytes each.
pub fn put_values(image: &mut [u8], values: [i32; TAG_COUNT], at: usize)
    requires { at + value_size * tag_count ≤ length image.old }
    ensures { image.new ≡ paste image.old at (words_of values) (value_size * tag_count) }
{
    for (i, v) in values.iter().enumerate() {
        put_u32(image, at + VALUE_SIZE * i, to_word(*v));
    }
}
