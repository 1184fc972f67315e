// The answers that are a code alone: those of empty and of purge.
ghost use Rattle.std.specs.Prelude.{◌≡◌};
ghost use Rattle.refusals.specs.Refusals.{answer_code};

use refusals::Refusal;

// The code of what empty or purge answers.
pub fn pack_code(answer: Result<(), Refusal>) -> u32
    ensures { result ≡ answer_code answer }
{
    match answer {
        Ok(()) => 0,
        Err(why) => why.code(),
    }
}
