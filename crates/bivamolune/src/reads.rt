// The calls that only read an image, for C. Each answers one number.
ghost use Rattle.bivamolune_packing.specs.ReadAnswers.{AnswersLogMessage, AnswersSetpoint};

use bivamolune_packing::reads::{pack_part, pack_value};
use read_calls::locating::locate;
use read_calls::setpoint::setpoint;

// Where the log's message at a place lies: code + 256 × size + 2^32 × offset.
pub fn bivamolune_log_message(image: &[u8], place: u32) -> u64
    ensures { AnswersLogMessage image.now place result }
{
    match locate(image, place as usize) {
        Ok(located) => pack_part(located.offset, located.size),
        Err(why) => u64::from(why.code()),
    }
}

// A tag's value: code + 2^32 × the value's word.
pub fn bivamolune_setpoint(image: &[u8], tag: u32) -> u64
    ensures { AnswersSetpoint image.now tag result }
{
    match setpoint(image, tag as usize) {
        Ok(value) => pack_value(value),
        Err(refusal) => u64::from(refusal.code()),
    }
}
