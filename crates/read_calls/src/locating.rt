// Where the log's message at a place lies in an image.
ghost use Rattle.std.specs.Prelude.{◌≡◌};
ghost use Rattle.read_calls.specs.Parts.{log_part};
ghost use Rattle.read_calls.specs.Answers.{part_by};

use crate::answer::Located;
use buffer_reads::get_u16;
use buffer_sizes::check_image_size;
use image_judged::judging::read_station;
use layout::LENGTH_AT;
use read_checks::check_place;
use refusals::Refusal;

// The part of an image that holds the log's message at a place, as offset and size. Both calls of log message stand on it.
pub fn locate(image: &[u8], place: usize) -> Result<Located, Refusal>
    ensures { part_by result ≡ log_part image.now place }
{
    let Ok(()) = check_image_size(image.len()) else {
        return Err(Refusal::WrongSize);
    };
    let Ok(station) = read_station(image) else {
        return Err(Refusal::NoImage);
    };
    let Ok(()) = check_place(image, place) else {
        return Err(Refusal::NotThere);
    };
    let offsets = station.offsets;
    let offset = offsets[place] as usize;
    let size = get_u16(image, offset + LENGTH_AT) as usize;
    Ok(Located { offset, size })
}
