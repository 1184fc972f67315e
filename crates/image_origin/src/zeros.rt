// Where nothing was purged: base values, block and group are zero.
ghost use Rattle.std.specs.Prelude.{◌≡◌, ◌≤◌, length, eqb};
ghost use Rattle.model.specs.Lists.{every};
ghost use Rattle.model.specs.Order.{all_zero};
ghost use Rattle.model.specs.Image.{messages_start_in, origin_in};
ghost use Rattle.refusals.specs.Refusals.{checked};
ghost use Rattle.refusals.specs.declared.Refusal.TheVariants.{NoImage};

use buffer_reads::get_u32;
use layout::{BASE_START, FLOORS_START, PURGED_BLOCK_AT, PURGED_GROUP_AT};
use refusals::Refusal;

// Whether all bytes are zero. It looks at all of them: so the compiler can take many at a time.
fn all_zero(b: &[u8]) -> bool
    ensures { result ≡ every (λ x. eqb x 0) b.now }
{
    b.iter().fold(true, |ok, x| ok & (*x == 0))
}

// Base values, block and group are zero.
#[tactic(auto, using(crate::proofs::Unpurged::zeros))]
pub fn check_unpurged(b: &[u8]) -> Result<(), Refusal>
    requires { messages_start_in b.now ≤ length b.now }
    ensures { result ≡ checked NoImage (all_zero (origin_in b.now)) }
{
    if !all_zero(&b[BASE_START..FLOORS_START]) {
        return Err(Refusal::NoImage);
    }
    if get_u32(b, PURGED_BLOCK_AT) != 0 {
        return Err(Refusal::NoImage);
    }
    if get_u32(b, PURGED_GROUP_AT) != 0 {
        return Err(Refusal::NoImage);
    }
    Ok(())
}
