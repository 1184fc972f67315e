// What the reader gives: the buffer is judged, and a message of the log looked for at the offset.
ghost use Rattle.std.specs.Prelude.{◌≡◌};
ghost use Rattle.model.specs.Codes.{lowest_code, read_conditions};
ghost use Rattle.model.specs.Calls.{next_message};

use buffer_sizes::check_image_size;
use image_judged::judging::read_station;
use read_search::find_message;

// The part of an image that holds the log's message at an offset; empty where none starts there, and of a buffer that is no image.
pub fn next_part(image: &[u8], offset: usize) -> &[u8]
    ensures { result.now ≡ next_message (lowest_code (read_conditions image.now)) image.now offset }
{
    let Ok(()) = check_image_size(image.len()) else {
        return &image[0..0];
    };
    let Ok(station) = read_station(image) else {
        return &image[0..0];
    };
    let offsets = station.offsets;
    let logged = station.logged;
    let Some(size) = find_message(image, &offsets[..logged], offset) else {
        return &image[0..0];
    };
    let end = offset + size;
    &image[offset..end]
}
