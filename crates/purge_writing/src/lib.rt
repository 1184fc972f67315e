// The image after a purge, written over the one before it.
#![tactic(auto)]

ghost use Rattle.std.specs.Prelude.{◌≡◌, ◌++◌, ◌+◌, ◌*◌, ◌-◌, ◌≤◌, length, take, drop};
ghost use Rattle.model.specs.Layout.{sequence_size, base_start, floors_start};
ghost use Rattle.model.specs.Purge.{purge_first};
ghost use Rattle.model.specs.Image.{values_bytes, image_of, state_in};
ghost use Rattle.image_header.specs.Pieces.{pasted, Copied};
ghost use Rattle.purge_writing.specs.Writing.{Writable};

use buffer_reads::get_u16;
use buffer_writes::{clear_from, copy_at};
use image_header::put_image_header;
use layout::{
    BASE_START, FLOORS_START, HELD_COUNT_AT, LOG_COUNT_AT, SEQUENCE_SIZE, TAG_COUNT, USED_AT,
};
use purge_rest::Rest;
use setpoints_values::put_values;

// Copies the pool's bytes from `from` up to `to` into the image, from `at` on. Returns the place behind them.
fn move_part(image: &mut [u8], pool: &[u8], from: usize, to: usize, at: usize) -> usize
    requires { (from ≤ to) × (to ≤ length pool.now) × (at + (to - from) ≤ length image.old) }
    ensures { Copied image.old at (take (to - from) (drop from pool.now)) image.new result }
{
    let size = to - from;
    copy_at(image, at, &pool[from..to], size);
    at + size
}

// Writes base values and floors where they stand in every image; the floors are the first of those in `tops`.
fn put_start(image: &mut [u8], base: [i32; TAG_COUNT], tops: &[u8], floors: usize)
    requires { (floors_start + sequence_size * floors ≤ length image.old) × (sequence_size * floors ≤ length tops.now) }
    ensures { image.new ≡ pasted image.old base_start (values_bytes base ++ take (sequence_size * floors) tops.now) }
{
    put_values(image, base, BASE_START);
    copy_at(image, FLOORS_START, tops, SEQUENCE_SIZE * floors);
}

// Writes the image of what is left when the first k log deltas of an image are purged. The pool is a copy of the image before. The messages
// that stay move up as one piece, and the setpoints stay as they are.
pub fn write_purged(image: &mut [u8], pool: &[u8], tops: &[u8], floors: usize, k: usize, rest: Rest)
    requires { Writable image.old pool.now tops.now floors k rest }
    ensures { image.new ≡ image_of (purge_first k (state_in image.old)) }
{
    let logged = get_u16(pool, LOG_COUNT_AT);
    let log = logged - k as u32;
    let held = get_u16(pool, HELD_COUNT_AT);
    let used = get_u16(pool, USED_AT) as usize;
    let start = FLOORS_START + SEQUENCE_SIZE * floors;
    let end = move_part(image, pool, rest.from, used, start);
    put_image_header(
        image,
        log,
        held,
        start as u32,
        end as u32,
        floors as u32,
        rest.block,
        rest.group,
    );
    let base = rest.base;
    put_start(image, base, tops, floors);
    clear_from(image, end);
}
