// The log reader for a caller that holds none: where it starts, and where it stands after one message. Each function makes a reader
// and gives it up, so that a caller holds numbers alone.
#![tactic(auto)]

ghost use Rattle.std.specs.Prelude.{◌≡◌};
ghost use Rattle.read_log.specs.Reader.{first_offset};
ghost use Rattle.read_offsets.specs.Offsets.{offset_after};

use read_log::reader::{LogReader, next, start};

// The offset at which a reader of an image starts.
pub fn start_offset(image: &[u8]) -> usize
    ensures { result ≡ first_offset image.now }
{
    start(image).offset
}

// The offset that a reader at an offset keeps after the message that comes next.
pub fn move_on(image: &[u8], offset: usize) -> usize
    ensures { result ≡ offset_after image.now offset }
{
    let mut reader = LogReader { image, offset };
    next(&mut reader);
    reader.offset
}
