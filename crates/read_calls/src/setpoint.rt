// Setpoint: a tag's value, as the log leaves it.
ghost use Rattle.std.specs.Prelude.{◌≡◌};
ghost use Rattle.model.specs.Calls as model;
ghost use Rattle.read_calls.specs.Answers.{setpoint_by};

use buffer_reads::get_u32;
use buffer_sizes::check_image_size;
use layout::{SETPOINTS_START, VALUE_SIZE};
use read_checks::{check_image, check_tag};
use refusals::Refusal;
use setpoints_arithmetic::integers::of_word;

// The value of a tag, read where it stands in the image.
pub fn setpoint(image: &[u8], tag: usize) -> Result<i32, Refusal>
    ensures { setpoint_by result ≡ model.setpoint image.now tag }
{
    let Ok(()) = check_image_size(image.len()) else {
        return Err(Refusal::WrongSize);
    };
    let Ok(()) = check_image(image) else {
        return Err(Refusal::NoImage);
    };
    let Ok(()) = check_tag(tag) else {
        return Err(Refusal::NotThere);
    };
    let value = of_word(get_u32(image, SETPOINTS_START + VALUE_SIZE * tag));
    Ok(value)
}
