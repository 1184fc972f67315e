// Deliver: a message arrives at a station. Each check's answer is opened by let else, which returns the refusal, in the order of the codes.
ghost use Rattle.std.specs.Prelude.{◌≡◌};
ghost use Rattle.model.specs.Calls as model;
ghost use Rattle.deliver_taking.specs.Answer.{delivered_by};

use buffer_sizes::{check_image_size, check_step_room};
use deliver_accepting::Counts;
use deliver_taking::take_in;
use image_judged::judging::read_and_copy;
use layout::POOL_SIZE;
use message_checks::content::check_content;
use message_dependencies::{check_dependencies, check_numbers};
use message_header::checks::check_layout;
use refusals::Refusal;

// Delivers a message: the image becomes that of the set with the message in it, and the steps stand at the front of their
// buffer. A refusal writes nothing.
pub fn deliver(image: &mut [u8], message: &[u8], steps: &mut [u8]) -> Result<Counts, Refusal>
    ensures { delivered_by result image.new steps.new ≡ model.deliver image.old message.now steps.old }
{
    let Ok(()) = check_image_size(image.len()) else {
        return Err(Refusal::WrongSize);
    };
    let Ok(()) = check_step_room(steps.len()) else {
        return Err(Refusal::WrongSize);
    };
    let mut pool = [0u8; POOL_SIZE];
    let Ok(station) = read_and_copy(image, &mut pool) else {
        return Err(Refusal::NoImage);
    };
    let Ok(()) = check_layout(message) else {
        return Err(Refusal::WrongLayout);
    };
    let Ok(()) = check_numbers(message) else {
        return Err(Refusal::WrongNumber);
    };
    let Ok(()) = check_dependencies(message) else {
        return Err(Refusal::WrongDependencies);
    };
    let Ok(()) = check_content(message) else {
        return Err(Refusal::WrongContent);
    };
    take_in(image, message, steps, &mut pool, station)
}
