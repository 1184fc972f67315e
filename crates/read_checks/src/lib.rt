// The checks of the calls that only read an image: code 2, and code 12 of a place and of a tag.
#![tactic(auto)]

ghost use Rattle.std.specs.Prelude.{◌≡◌, not, length, leb};
ghost use Rattle.model.specs.Layout.{image_size, tag_count};
ghost use Rattle.model.specs.Image.{is_image, log_count};
ghost use Rattle.refusals.specs.Refusals.{checked};
ghost use Rattle.refusals.specs.declared.Refusal.TheVariants.{NoImage, NotThere};

use buffer_reads::get_u16;
use image_judged::judging::read_station;
use layout::{LOG_COUNT_AT, TAG_COUNT};
use refusals::Refusal;

// Code 2: whether a buffer of an image's size is one.
pub fn check_image(image: &[u8]) -> Result<(), Refusal>
    requires { length image.now ≡ image_size }
    ensures { result ≡ checked NoImage (is_image image.now) }
{
    read_station(image)?;
    Ok(())
}

// Code 12 of a place: it has to be below the log's length.
pub fn check_place(image: &[u8], place: usize) -> Result<(), Refusal>
    requires { length image.now ≡ image_size }
    ensures { result ≡ checked NotThere (not (leb (log_count image.now) place)) }
{
    let logged = get_u16(image, LOG_COUNT_AT) as usize;
    if logged <= place {
        return Err(Refusal::NotThere);
    }
    Ok(())
}

// Code 12 of a tag: it has to be one of the 64.
pub fn check_tag(tag: usize) -> Result<(), Refusal>
    ensures { result ≡ checked NotThere (not (leb tag_count tag)) }
{
    if TAG_COUNT <= tag {
        return Err(Refusal::NotThere);
    }
    Ok(())
}
