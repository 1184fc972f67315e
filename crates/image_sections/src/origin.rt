// The base values and the floors: those of the image that a pool begins with, byte by byte.
ghost use Rattle.std.specs.Prelude.{◌≡◌, ◌≤◌, length};
ghost use Rattle.model.specs.Layout.{base_start};
ghost use Rattle.model.specs.Image.{messages_start_in, origin_in};
ghost use Rattle.image_header.specs.Pieces.{pasted};
ghost use Rattle.image_sections.specs.Sections.{origin_bytes};

use buffer_writes::copy_at;
use layout::BASE_START;

// Writes them where they stand in every image; the messages start at `start`.
pub fn put_origin(out: &mut [u8], pool: &[u8], start: usize)
    requires { (start ≡ messages_start_in pool.now) × (start ≤ length pool.now) × (start ≤ length out.old) }
    ensures { out.new ≡ pasted out.old base_start (origin_bytes (origin_in pool.now)) }
{
    let size = start - BASE_START;
    copy_at(out, BASE_START, &pool[BASE_START..start], size);
}
