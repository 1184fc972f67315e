// The boundary to C: each export is a function of `bivamolune` with its clauses; `include/bivamolune.h` is beside it. Numbers and
// byte slices alone cross it, a slice as a pointer and a length.
#![tactic(auto)]

pub mod composition;
pub mod reads;
pub mod texts;

ghost use Rattle.bivamolune_packing.specs.Answers.{Empties, Delivers, Purges};

// Writes the image of no deltas, and answers the code.
#[unsafe(no_mangle)]
pub extern "C" fn bivamolune_empty(image: &mut [u8]) -> u32
    ensures { Empties image.old result image.new }
{
    bivamolune::bivamolune_empty(image)
}

// Delivers a message, and answers code + 256 × undos + 65536 × executions.
#[unsafe(no_mangle)]
pub extern "C" fn bivamolune_deliver(image: &mut [u8], message: &[u8], steps: &mut [u8]) -> u32
    ensures { Delivers image.old message.now steps.old result image.new steps.new }
{
    bivamolune::bivamolune_deliver(image, message, steps)
}

// Drops the first k log messages, and answers the code.
#[unsafe(no_mangle)]
pub extern "C" fn bivamolune_purge(image: &mut [u8], k: u32) -> u32
    ensures { Purges image.old k result image.new }
{
    bivamolune::bivamolune_purge(image, k)
}
