// The reader: a struct that holds the lent image. Its functions are thin, and the work is `first_offset` and `next_part`.
ghost use Rattle.std.specs.Prelude.{◌≡◌};
ghost use Rattle.read_log.specs.Reader.{first_offset, Starts, Reads};

use crate::finding::next_part;
use buffer_sizes::check_image_size;
use set_table::start::messages_start;

#[derive(Clone, Copy)]
pub struct LogReader<'a> {
    pub image: &'a [u8],
    pub offset: usize,
}

// Where a reader of a buffer starts: at its first message, or at 0 where its size is wrong.
fn first_offset(image: &[u8]) -> usize
    ensures { result ≡ first_offset image.now }
{
    let Ok(()) = check_image_size(image.len()) else {
        return 0;
    };
    messages_start(image)
}

// A reader at the first message of the log.
pub fn start<'a>(image: &'a [u8]) -> LogReader<'a>
    ensures { Starts image.now result }
{
    LogReader {
        image,
        offset: first_offset(image),
    }
}

// The next message of the log, as a part of the image; the reader moves on past it.
pub fn next<'s, 'a>(reader: &'s mut LogReader<'a>) -> &'a [u8]
    ensures { Reads reader.old result.now reader.new }
{
    let part = next_part(reader.image, reader.offset);
    reader.offset = reader.offset + part.len();
    part
}
