// The floors that a pool's image begins with: how many there are, each by its place, and the one that a sequence is at or below.
#![tactic(auto)]

ghost use Rattle.std.specs.Prelude.{◌≡◌, ◌+◌, ◌<◌, ◌≤◌, length, get_or, T};
ghost use Rattle.model.specs.Lists.{greatest};
ghost use Rattle.model.specs.Layout.{floor_count_at};
ghost use Rattle.model.specs.Message.{number_of, line_of};
ghost use Rattle.model.specs.Tops.{covered};
ghost use Rattle.model.specs.Order.{origin_right};
ghost use Rattle.model.specs.Image.{floor_count, floors_in, origin_in, messages_start_in};
ghost use Rattle.model.specs.Compose.{number_on};
ghost use Rattle.message_sequence.specs.Sequence.{sequence_number};
ghost use Rattle.set_floors.specs.Floors.{IsFirst};

use buffer_reads::get_u16;
use layout::{FLOOR_COUNT_AT, FLOORS_START, SEQUENCE_SIZE};
use message_sequence::{Sequence, less, number_of, read_sequence, same_line};

// How many floors there are.
pub fn count_floors(pool: &[u8]) -> usize
    requires { floor_count_at + 2 ≤ length pool.now }
    ensures { (result ≡ floor_count pool.now) × (result < 65536) }
{
    get_u16(pool, FLOOR_COUNT_AT) as usize
}

// The floor at a place among them.
pub fn floor_at(pool: &[u8], i: usize) -> Sequence
    requires { (messages_start_in pool.now ≤ length pool.now) × (i < floor_count pool.now) }
    ensures { sequence_number result ≡ get_or (floors_in pool.now) i 0 }
{
    read_sequence(pool, FLOORS_START + SEQUENCE_SIZE * i)
}

// The place of the first floor that is not below a sequence, or the place past all `count` of them. Halves what is left.
fn first_floor(pool: &[u8], count: usize, s: Sequence) -> usize
    requires { T (origin_right (origin_in pool.now)) × (count ≡ floor_count pool.now) }
    ensures { IsFirst (floors_in pool.now) (sequence_number s) result }
{
    let mut low = 0;
    let mut high = count;
    while low < high {
        let middle = low + (high - low) / 2;
        let x = floor_at(pool, middle);
        if less(x, s) {
            low = middle + 1;
        } else {
            high = middle;
        }
    }
    low
}

// Whether a sequence is at or below the floor of its line: then the first floor that is not below it is on its line.
pub fn is_purged(pool: &[u8], s: Sequence) -> bool
    requires { T (origin_right (origin_in pool.now)) }
    ensures { result ≡ covered (origin_in pool.now).floors (sequence_number s) }
{
    let count = count_floors(pool);
    let p = first_floor(pool, count, s);
    if p == count {
        return false;
    }
    let floor = floor_at(pool, p);
    same_line(floor, s)
}

// The number of a line's floor, 0 where it has none. The line is given as the sequence of its number 0000.
pub fn floor_number(pool: &[u8], line: Sequence) -> u32
    requires { T (origin_right (origin_in pool.now)) × (number_of (sequence_number line) ≡ 0) }
    ensures { result ≡ greatest (number_on (line_of (sequence_number line))) (origin_in pool.now).floors }
{
    let count = count_floors(pool);
    let p = first_floor(pool, count, line);
    if p == count {
        return 0;
    }
    let floor = floor_at(pool, p);
    if same_line(floor, line) {
        return number_of(floor);
    }
    0
}
