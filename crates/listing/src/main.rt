// The listing program: standard input read, the listing written. A line for each message and a last line are printed in every case:
// where a read fails, the listing is that of the bytes before it, and standard error says why.
#![tactic(auto)]

use listing_whole::limits::{INPUT_LIMIT, LISTING_ROOM};
use listing_whole::walking::list;
use program_input::{drop_rest, read_input};
use std::process::ExitCode;

// Writes the listing of an input to standard output. Where that fails, standard error says why, and the status tells it.
fn print_listing(rt: &(impl Print + Eprint), input: &[u8]) -> ExitCode {
    let mut out = [0u8; LISTING_ROOM];
    let n = list(input, &mut out);
    let Err(error) = rt.write_all(&out[..n]) else {
        return ExitCode::SUCCESS;
    };
    let _ = eprintln!(rt; "standard output: {error}");
    ExitCode::FAILURE
}

fn main(rt: HostRuntime) -> ExitCode {
    let mut stdin = rt.stdin();
    let mut buf = [0u8; INPUT_LIMIT];
    match read_input(&mut stdin, &mut buf) {
        Ok(n) => {
            let status = print_listing(&rt, &buf[..n]);
            if n == INPUT_LIMIT {
                drop_rest(&mut stdin);
            }
            status
        }
        Err(failure) => {
            let _ = eprintln!(rt; "standard input: {}", failure.error);
            print_listing(&rt, &buf[..failure.read])
        }
    }
}
