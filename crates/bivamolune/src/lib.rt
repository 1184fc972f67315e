// The calls as C has them: each function makes one call and packs its answer. `bivamolune_c` exports them.
#![tactic(auto)]

pub mod composition;
pub mod reads;
pub mod texts;

ghost use Rattle.bivamolune_packing.specs.Answers.{Empties, Delivers, Purges};

use bivamolune_packing::codes::pack_code;
use bivamolune_packing::deliveries::pack_delivery;
use deliver::delivery::deliver;
use empty::empty;
use purge::purge;

// Writes the image of no deltas, and answers the code.
pub fn bivamolune_empty(image: &mut [u8]) -> u32
    ensures { Empties image.old result image.new }
{
    pack_code(empty(image))
}

// Delivers a message, and answers code + 256 × undos + 65536 × executions.
pub fn bivamolune_deliver(image: &mut [u8], message: &[u8], steps: &mut [u8]) -> u32
    ensures { Delivers image.old message.now steps.old result image.new steps.new }
{
    pack_delivery(deliver(image, message, steps))
}

// Drops the first k log messages, and answers the code.
pub fn bivamolune_purge(image: &mut [u8], k: u32) -> u32
    ensures { Purges image.old k result image.new }
{
    pack_code(purge(image, k as usize))
}
