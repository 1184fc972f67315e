// A message checked by 3 to 6.
ghost use Rattle.std.specs.Prelude.{◌≡◌};
ghost use Rattle.message_checks.specs.Passing.{message_checked};

use crate::content::check_content;
use message_dependencies::{check_dependencies, check_numbers};
use message_header::checks::check_layout;
use refusals::Refusal;

// Codes 3 to 6, of any bytes: refused by the first that applies. Each check asks for what the one before has told.
#[tactic(auto, unfolding(crate::specs::Passing::message_checked), using(crate::proofs::Layouts::layouts))]
pub fn check_message(m: &[u8]) -> Result<(), Refusal>
    ensures { result ≡ message_checked m.now }
{
    check_layout(m)?;
    check_numbers(m)?;
    check_dependencies(m)?;
    check_content(m)
}
