// The program `print_log` for the service laptop: an image read, its log written.
#![tactic(auto)]

use layout::IMAGE_SIZE;
use print_log_whole::limits::LOG_ROOM;
use print_log_whole::printing::put_log;
use program_input::{drop_rest, read_input};
use std::process::ExitCode;

// One byte more than an image has: an input that fills it is too long.
const INPUT_ROOM: usize = IMAGE_SIZE + 1;

// Writes the log of an input to standard output, or the code that refuses it. Where that fails, standard error says why, and the
// status tells it.
fn print_log(rt: &(impl Print + Eprint), input: &[u8]) -> ExitCode {
    let mut out = [0u8; LOG_ROOM];
    let n = put_log(input, &mut out);
    let Err(error) = rt.write_all(&out[..n]) else {
        return ExitCode::SUCCESS;
    };
    let _ = eprintln!(rt; "standard output: {error}");
    ExitCode::FAILURE
}

fn main(rt: HostRuntime) -> ExitCode {
    let mut stdin = rt.stdin();
    let mut buf = [0u8; INPUT_ROOM];
    let n = match read_input(&mut stdin, &mut buf) {
        Ok(n) => n,
        Err(failure) => {
            let _ = eprintln!(rt; "standard input: {}", failure.error);
            return ExitCode::SUCCESS;
        }
    };
    let status = print_log(&rt, &buf[..n]);
    if n == INPUT_ROOM {
        drop_rest(&mut stdin);
    }
    status
}
