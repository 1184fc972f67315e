// The call `empty`.
#![tactic(auto)]

ghost use Rattle.std.specs.Prelude.{◌≡◌};
ghost use Rattle.model.specs.Calls as model;
ghost use Rattle.empty.specs.EmptyAnswer.{emptied_by};

use buffer_sizes::check_image_size;
use image::put_empty;
use refusals::Refusal;

// Writes the image of no deltas into a buffer of an image's size. A buffer of another size stays as it is.
#[tactic(auto, using(crate::proofs::Sizes::by_size))]
pub fn empty(image: &mut [u8]) -> Result<(), Refusal>
    ensures { emptied_by result image.new ≡ model.empty image.old }
{
    let Ok(()) = check_image_size(image.len()) else {
        return Err(Refusal::WrongSize);
    };
    put_empty(image);
    Ok(())
}
