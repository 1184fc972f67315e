// The answers that are a length: those of compose, and of the reader and the writer of sequences as text.
ghost use Rattle.std.specs.Prelude.{◌≡◌};
ghost use Rattle.bivamolune_packing.specs.Lengths.{Short, number_by};

use refusals::Refusal;

// what an answer's length is multiplied by
pub const LENGTH_UNIT: u32 = 256;

// The number of what such a call answers.
pub fn pack_length(answer: Result<usize, Refusal>) -> u32
    requires { Short answer }
    ensures { result ≡ number_by answer }
{
    match answer {
        Ok(size) => LENGTH_UNIT * (size as u32),
        Err(why) => why.code(),
    }
}
