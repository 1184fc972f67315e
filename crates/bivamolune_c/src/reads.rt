// The calls that only read an image, for C. Each answers one number.
ghost use Rattle.bivamolune_packing.specs.ReadAnswers.{AnswersLogMessage, AnswersSetpoint};

// Where the log's message at a place lies: code + 256 × size + 2^32 × offset.
#[unsafe(no_mangle)]
pub extern "C" fn bivamolune_log_message(image: &[u8], place: u32) -> u64
    ensures { AnswersLogMessage image.now place result }
{
    bivamolune::reads::bivamolune_log_message(image, place)
}

// A tag's value: code + 2^32 × the value's word.
#[unsafe(no_mangle)]
pub extern "C" fn bivamolune_setpoint(image: &[u8], tag: u32) -> u64
    ensures { AnswersSetpoint image.now tag result }
{
    bivamolune::reads::bivamolune_setpoint(image, tag)
}
