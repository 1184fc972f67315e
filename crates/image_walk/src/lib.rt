// The walk over an image's messages, the only one: each is checked, its length added once, its offset written down. Whatever looks
// for a message of an image takes its offset from here.
#![tactic(auto)]

ghost use Rattle.std.specs.Prelude.{◌≡◌, ◌+◌, ◌≤◌, length, eqb, leb};
ghost use Rattle.model.specs.Bytes.{field};
ghost use Rattle.model.specs.Layout.{length_at, header_size, image_size, setpoints_offset_at, floor_count_at, capacity};
ghost use Rattle.model.specs.Image.{messages_start_in, used_count};
ghost use Rattle.refusals.specs.Refusals.{checked};
ghost use Rattle.refusals.specs.declared.Refusal.TheVariants.{NoImage};
ghost use Rattle.image_walk.specs.Walk.{count_in, Ends, Walks};

use buffer_reads::get_u16;
use layout::{CAPACITY, HEADER_SIZE, HELD_COUNT_AT, LENGTH_AT, LOG_COUNT_AT, USED_AT};
use message_checks::checking::check_message;
use refusals::Refusal;
use set_table::start::messages_start;

// The offsets of a buffer's messages, in its order: the first `count` of the array.
#[derive(Clone, Copy)]
pub struct Walk {
    pub offsets: [u16; CAPACITY],
    pub count: usize,
}

// How many messages an image says it has, in its log and held.
fn count_messages(b: &[u8]) -> usize
    requires { setpoints_offset_at ≤ length b.now }
    ensures { result ≡ count_in b.now }
{
    let log = get_u16(b, LOG_COUNT_AT) as usize;
    let held = get_u16(b, HELD_COUNT_AT) as usize;
    log + held
}

// No image has more messages than a station may hold.
fn check_count(total: usize) -> Result<(), Refusal>
    ensures { result ≡ checked NoImage (leb total capacity) }
{
    if CAPACITY < total {
        return Err(Refusal::NoImage);
    }
    Ok(())
}

// The messages have to end where the bytes used do.
fn check_used(b: &[u8], at: usize) -> Result<(), Refusal>
    requires { floor_count_at ≤ length b.now }
    ensures { result ≡ checked NoImage (eqb at (used_count b.now)) }
{
    if at != get_u16(b, USED_AT) as usize {
        return Err(Refusal::NoImage);
    }
    Ok(())
}

// The length of the message at an offset, added to the offset: where it ends, and the next one starts.
fn add_length(b: &[u8], at: usize) -> usize
    requires { (length b.now ≡ image_size) × (at + header_size ≤ length b.now) }
    ensures { result ≡ at + field b.now (at + length_at) 2 }
{
    let size = get_u16(b, at + LENGTH_AT) as usize;
    at + size
}

// Where the message at an offset ends, cut by its length field and checked.
#[tactic(auto, using(crate::specs::EndLaws::short_fails, crate::specs::EndLaws::past_end_fails, message_checks::specs::Passing::passes_checked))]
fn find_end(b: &[u8], at: usize) -> Result<usize, Refusal>
    requires { (length b.now ≡ image_size) × (at ≤ length b.now) }
    ensures { Ends b.now at result }
{
    let limit = b.len();
    if limit - at < HEADER_SIZE {
        return Err(Refusal::NoImage);
    }
    let end = add_length(b, at);
    if limit < end {
        return Err(Refusal::NoImage);
    }
    if check_message(&b[at..end]).is_err() {
        return Err(Refusal::NoImage);
    }
    Ok(end)
}

// Walks a buffer's messages, which start inside it; refused where no image can hold them.
#[tactic(auto, using(crate::proofs::WalkLaws::refused))]
pub fn walk_messages(b: &[u8]) -> Result<Walk, Refusal>
    requires { (length b.now ≡ image_size) × (messages_start_in b.now ≤ length b.now) }
    ensures { Walks b.now result }
{
    let total = count_messages(b);
    check_count(total)?;
    let mut offsets = [0; CAPACITY];
    let mut at = messages_start(b);
    for k in 0..total {
        let end = find_end(b, at)?;
        offsets[k] = at as u16;
        at = end;
    }
    check_used(b, at)?;
    Ok(Walk {
        offsets,
        count: total,
    })
}
