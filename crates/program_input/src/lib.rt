// Standard input, read in pieces until it ends or a buffer is full.
#![tactic(auto)]

pub mod answer;
#[cfg(test)]
mod tests;

ghost use Rattle.std.specs.Prelude.{◌≤◌, ◌≡◌, length, take};
ghost use Rattle.program_input.specs.Reading.{ReadingFits, InputFits};
ghost use Rattle.program_input.specs.Failing.{ReadingTells, InputTells};
ghost use Rattle.program_input.specs.Taken.{TakesPiece, EndsWithin, size_of};
ghost use Rattle.std.specs.Io.KnownBytes.{Consumes};

use answer::{Failure, goes_on, judge_answer};
use std::io::{Error, Read};

// Reads once, behind the bytes that are there, which stay as they are.
fn read_piece<R: Read>(reader: &mut R, buf: &mut [u8], at: usize) -> std::io::Result<Option<usize>>
    requires { at ≤ length buf.old }
    ensures reading_fits { ReadingFits at (length buf.old) result }
    ensures buf_unchanged { take at buf.new ≡ take at buf.old }
    ensures takes { TakesPiece (R.remaining reader.old) (R.remaining reader.new) at (length buf.old) result buf.new }
    ensures tells { ReadingTells result }
{
    judge_answer(reader.read(&mut buf[at..]))
}

// Reads until the input ends or the buffer is full, and answers how many bytes are there. Each read counts down from a number that no
// run uses up. Where a reader says what it has left, these bytes are the first of it; standard input does not say.
pub fn read_input<R: Read>(reader: &mut R, buf: &mut [u8]) -> Result<usize, Failure>
    ensures fits { InputFits (length buf.old) result }
    ensures takes { Consumes (R.remaining reader.old) (R.remaining reader.new) (take (size_of result) buf.new) }
    ensures ends { EndsWithin (length buf.old) (R.remaining reader.new) result }
    ensures tells { InputTells result }
{
    let mut tries = u64::MAX;
    let mut at = 0;
    while at < buf.len() {
        if tries == 0 {
            let error = Error::other("it never ends");
            return Err(Failure { read: at, error });
        }
        tries -= 1;
        match read_piece(reader, buf, at) {
            Ok(Some(n)) => at += n,
            Ok(None) => return Ok(at),
            Err(error) => return Err(Failure { read: at, error }),
        }
    }
    Ok(at)
}

// Reads what lies beyond the buffer and drops it, so that its writer can end.
pub fn drop_rest<R: Read>(reader: &mut R) {
    let mut buf = [0u8; 4096];
    for _ in 0..u64::MAX {
        if !goes_on(judge_answer(reader.read(&mut buf))) {
            return;
        }
    }
}
