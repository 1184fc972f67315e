// The header of an image, and how pieces are pasted into a buffer.
#![tactic(auto)]

ghost use Rattle.std.specs.Prelude.{◌≡◌, ◌≤◌, length};
ghost use Rattle.model.specs.Layout.{log_count_at, setpoints_offset_at, floor_count_at, purged_block_at, setpoints_start};
ghost use Rattle.image_header.specs.Pieces.{pasted, counts_bytes, offsets_bytes, floor_fields_bytes, purged_bytes, header_bytes};

use buffer_writes::{put_u16, put_u32, put_u64};
use layout::{
    BASE_OFFSET_AT, BASE_START, FLOOR_COUNT_AT, FLOORS_OFFSET_AT, FLOORS_START, HELD_COUNT_AT,
    LOG_COUNT_AT, MESSAGES_OFFSET_AT, PURGED_BLOCK_AT, PURGED_GROUP_AT, SETPOINTS_OFFSET_AT,
    SETPOINTS_START, USED_AT, ZEROS_AT,
};

// Writes L and H.
fn put_counts(out: &mut [u8], log: u32, held: u32)
    requires { setpoints_start ≤ length out.old }
    ensures { out.new ≡ pasted out.old log_count_at (counts_bytes log held) }
{
    put_u16(out, LOG_COUNT_AT, log);
    put_u16(out, HELD_COUNT_AT, held);
}

// Writes the offsets of setpoints and messages, and the bytes used.
fn put_offsets(out: &mut [u8], start: u32, used: u32)
    requires { setpoints_start ≤ length out.old }
    ensures { out.new ≡ pasted out.old setpoints_offset_at (offsets_bytes start used) }
{
    put_u16(out, SETPOINTS_OFFSET_AT, SETPOINTS_START as u32);
    put_u16(out, MESSAGES_OFFSET_AT, start);
    put_u16(out, USED_AT, used);
}

// Writes how many floors there are, and the offsets of floors and base values.
fn put_floor_fields(out: &mut [u8], floors: u32)
    requires { setpoints_start ≤ length out.old }
    ensures { out.new ≡ pasted out.old floor_count_at (floor_fields_bytes floors) }
{
    put_u16(out, FLOOR_COUNT_AT, floors);
    put_u16(out, FLOORS_OFFSET_AT, FLOORS_START as u32);
    put_u16(out, BASE_OFFSET_AT, BASE_START as u32);
}

// Writes the greatest purged block and group, and eight zeros.
fn put_purged(out: &mut [u8], block: u32, group: u32)
    requires { setpoints_start ≤ length out.old }
    ensures { out.new ≡ pasted out.old purged_block_at (purged_bytes block group) }
{
    put_u32(out, PURGED_BLOCK_AT, block);
    put_u32(out, PURGED_GROUP_AT, group);
    put_u64(out, ZEROS_AT, 0);
}

// Writes the header: the messages start at `start` and end at `used`; there are so many floors, and block and group are the purged ones.
pub fn put_image_header(
    out: &mut [u8],
    log: u32,
    held: u32,
    start: u32,
    used: u32,
    floors: u32,
    block: u32,
    group: u32,
)
    requires { setpoints_start ≤ length out.old }
    ensures { out.new ≡ pasted out.old 0 (header_bytes log held start used floors block group) }
{
    put_counts(out, log, held);
    put_offsets(out, start, used);
    put_floor_fields(out, floors);
    put_purged(out, block, group);
}
