// A reader that brings little, is interrupted, and may fail in the end.
use crate::answer::EINTR;
use crate::{drop_rest, read_input};
use std::io::{Error, Read, Result};

const EIO: i32 = 5;

// Every other read is interrupted, and the others bring two bytes at most. Behind the last byte it ends, or fails.
#[derive(Drop)]
struct Halting<'a> {
    bytes: &'a [u8],
    reads: u32,
    fails: bool,
}

impl Read for Halting<'_> {
    fn read(&mut self, buf: &mut [u8]) -> Result<usize> {
        self.reads = self.reads.wrapping_add(1);
        if self.reads % 2 == 1 {
            return Err(Error::from_raw_os_error(EINTR));
        }
        if self.fails && self.bytes.is_empty() {
            return Err(Error::from_raw_os_error(EIO));
        }
        let n = self.bytes.len().min(buf.len()).min(2);
        buf[..n].copy_from_slice(&self.bytes[..n]);
        self.bytes = &self.bytes[n..];
        Ok(n)
    }
}

fn reader_of(bytes: &[u8], fails: bool) -> Halting<'_> {
    Halting {
        bytes,
        reads: 0,
        fails,
    }
}

#[test]
fn interruptions_are_read_over(rt: HostRuntime) {
    let mut reader = reader_of(b"hello", false);
    let mut buf = [0u8; 8];
    let input = read_input(&mut reader, &mut buf);
    assert!(rt; matches!(input, Ok(5)));
    assert_eq!(rt; &buf[..5], b"hello".as_slice());
}

#[test]
fn a_failure_behind_some_bytes(rt: HostRuntime) {
    let mut reader = reader_of(b"hello", true);
    let mut buf = [0u8; 8];
    let input = read_input(&mut reader, &mut buf);
    let Err(failure) = input else {
        panic!(rt; "the last read fails");
    };
    assert_eq!(rt; failure.read, 5);
    assert_eq!(rt; &buf[..5], b"hello".as_slice());
    assert_eq!(rt; failure.error.raw_os_error(), Some(EIO));
}

#[test]
fn the_rest_is_dropped(rt: HostRuntime) {
    let mut reader = reader_of(b"hello, world", false);
    let mut buf = [0u8; 5];
    let input = read_input(&mut reader, &mut buf);
    assert!(rt; matches!(input, Ok(5)));
    assert_eq!(rt; reader.bytes.len(), 7);
    drop_rest(&mut reader);
    assert!(rt; reader.bytes.is_empty());
}
