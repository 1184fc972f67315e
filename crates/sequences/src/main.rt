// The program `sequences` for the service laptop: standard input read, the other form written.
#![tactic(auto)]

use program_input::{drop_rest, read_input};
use sequences_forms::{OUTPUT_ROOM, convert};
use std::process::ExitCode;

// More than either form has: an input that fills it is refused.
const INPUT_ROOM: usize = 256;

// Writes to standard output. Where that fails, standard error says why, and the status tells it.
fn print(rt: &(impl Print + Eprint), bytes: &[u8]) -> ExitCode {
    let Err(error) = rt.write_all(bytes) else {
        return ExitCode::SUCCESS;
    };
    let _ = eprintln!(rt; "standard output: {error}");
    ExitCode::FAILURE
}

// Tells a refusal on standard error.
fn refuse(rt: &impl Eprint, code: u32) -> ExitCode {
    let _ = eprintln!(rt; "refused: {code}");
    ExitCode::SUCCESS
}

// Prints the other form of an input, or the code that refuses it.
fn print_other(rt: &(impl Print + Eprint), input: &[u8]) -> ExitCode {
    let mut out = [0u8; OUTPUT_ROOM];
    match convert(input, &mut out) {
        Ok(n) => print(rt, &out[..n]),
        Err(why) => refuse(rt, why.code()),
    }
}

fn main(rt: HostRuntime) -> ExitCode {
    let mut stdin = rt.stdin();
    let mut buf = [0u8; INPUT_ROOM];
    let n = match read_input(&mut stdin, &mut buf) {
        Ok(n) => n,
        Err(failure) => {
            let _ = eprintln!(rt; "standard input: {}", failure.error);
            return ExitCode::SUCCESS;
        }
    };
    let status = print_other(&rt, &buf[..n]);
    if n == INPUT_ROOM {
        drop_rest(&mut stdin);
    }
    status
}
