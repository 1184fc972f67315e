// The whole listing: what is read of the input, delivered to an image of no deltas.
ghost use Rattle.std.specs.Prelude.{◌≡◌, take};
ghost use Rattle.model.specs.Layout.{input_limit};
ghost use Rattle.model.specs.Program.{listing};
ghost use Rattle.program_decimal.specs.Front.{Prints};

use crate::limits::{INPUT_LIMIT, LISTING_ROOM};
use empty::empty;
use layout::IMAGE_SIZE;
use listing_walk::list_messages;

// The part of an input that is read: any bytes beyond the limit are dropped.
#[tactic(auto, using(std::proofs::lemmas::List::take_min))]
fn read_part(input: &[u8]) -> &[u8]
    ensures { result.now ≡ take input_limit input.now }
{
    &input[..INPUT_LIMIT.min(input.len())]
}

// The listing of an input, at the front of a buffer that is proved to hold it; answers how long it is.
pub fn list(input: &[u8], out: &mut [u8; LISTING_ROOM]) -> usize
    ensures { Prints (listing input.now) out.old result out.new }
{
    let mut image = [0u8; IMAGE_SIZE];
    // never met: the buffer has an image's size
    if empty(&mut image).is_err() {
        return 0;
    }
    let read = read_part(input);
    list_messages(read, &mut image, out)
}
