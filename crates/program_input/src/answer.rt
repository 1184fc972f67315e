// What an answer of read says, and errno of the error that a read fails by.
ghost use Rattle.std.specs.Prelude.{◌≡◌};
ghost use Rattle.program_input.specs.Reading.{reading_after, goes_on};
ghost use Rattle.program_input.specs.Failing.{errno_of, errno_of_kind};

use std::io::{Error, ErrorKind, Result};

// errno of a call that a signal interrupted.
pub const EINTR: i32 = 4;

// A read that failed, and how many bytes those before it brought.
#[derive(Clone, Copy)]
pub struct Failure {
    pub read: usize,
    pub error: Error,
}

// How many bytes read's answer says it brought, none where a signal interrupted it; `None` at the end of the input.
pub fn judge_answer(answer: Result<usize>) -> Result<Option<usize>>
    ensures { result ≡ reading_after answer }
{
    match answer {
        Ok(0) => Ok(None),
        Ok(n) => Ok(Some(n)),
        Err(error) if errno_of(&error) == EINTR => Ok(Some(0)),
        Err(error) => Err(error),
    }
}

// Whether more may come.
pub fn goes_on(reading: Result<Option<usize>>) -> bool
    ensures { result ≡ goes_on reading }
{
    matches!(reading, Ok(Some(_)))
}

// errno of an error. One that the system did not number is told by its kind.
pub fn errno_of(error: &Error) -> i32
    ensures { result ≡ errno_of error.now }
{
    error.raw_os_error().unwrap_or(errno_of_kind(error.kind()))
}

fn errno_of_kind(kind: ErrorKind) -> i32
    ensures { result ≡ errno_of_kind kind }
{
    match kind {
        ErrorKind::Interrupted => EINTR,
        _ => 0,
    }
}
