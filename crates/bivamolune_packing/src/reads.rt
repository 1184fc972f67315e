// The answers of log message and of setpoint, where they are no refusals.
ghost use Rattle.std.specs.Prelude.{◌≡◌};
ghost use Rattle.bivamolune_packing.specs.ReadAnswers.{PartSmall, part_number, value_number};

use setpoints_arithmetic::integers::to_word;

// what a part's size, its offset and a value's word are multiplied by
const SIZE_UNIT: u64 = 256;

const OFFSET_UNIT: u64 = 4294967296;

const VALUE_UNIT: u64 = 4294967296;

// The number of a part: its size and its offset beside the code 0.
pub fn pack_part(offset: usize, size: usize) -> u64
    requires { PartSmall offset size }
    ensures { result ≡ part_number 0 offset size }
{
    SIZE_UNIT * (size as u64) + OFFSET_UNIT * (offset as u64)
}

// The number of a value: its word beside the code 0.
pub fn pack_value(value: i32) -> u64
    ensures { result ≡ value_number 0 value }
{
    VALUE_UNIT * (to_word(value) as u64)
}
