//! What no clause says: that calls succeed, and what the adapters do on real streams.

use rd_io::*;
use std::alloc::Global;
use std::collections::VecDeque;
use std::io;
use std::io::{Error, ErrorKind, Write};
use std::test::Fail;

/// A writer that takes nothing, or takes all and cannot flush.
#[derive(Drop)]
struct Broken {
    takes: bool,
}

impl Write for Broken {
    fn write(&mut self, buf: &[u8]) -> io::Result<usize> {
        Ok(if self.takes { buf.len() } else { 0 })
    }

    fn flush(&mut self) -> io::Result<()> {
        if self.takes {
            Err(Error::from(ErrorKind::Other))
        } else {
            Ok(())
        }
    }
}

/// A sink that takes one byte a call.
#[derive(Drop)]
struct ByteByByte<'a> {
    out: SureSink<'a>,
}

impl<'a> Sink for ByteByByte<'a> {
    ghost use Rattle.std.specs.Prelude.{Some};

    ghost written = { λ s. Some s.out.written };

    ghost faults = { λ s. s.out.faults };

    fn write(&mut self, piece: &[u8]) -> Result<usize, Failed> {
        self.out.write(&piece[..piece.len().min(1)])
    }
}

/// The name of what reading these bytes gives, where the calls of these numbers fail.
fn outcome(
    alloc: Global,
    bytes: &[u8],
    failing: &[u64],
    limit: usize,
) -> Result<&'static str, Fail> {
    let bytes = Vec::from_slice(alloc, bytes)?;
    let failing = Vec::from_slice(alloc, failing)?;
    let mut source = MemorySource::new(bytes, failing);
    let limit = limit.min(1000);
    Ok(match read_all(alloc, &mut source, limit) {
        Ok(_) => "all",
        Err(ReadAll::Fault) => "fault",
        Err(ReadAll::TooLarge) => "too large",
        Err(ReadAll::NoMemory) => "no memory",
    })
}

#[test]
fn memory_is_read_to_its_end(rt: HostRuntime) -> Result<(), Fail> {
    let alloc = rt.alloc();
    assert_eq!(rt; outcome(alloc, b"abc", &[], 3)?, "all");
    assert_eq!(rt; outcome(alloc, b"", &[], 0)?, "all");
    assert_eq!(rt; outcome(alloc, b"abcd", &[], 3)?, "too large");
    assert_eq!(rt; outcome(alloc, b"abc", &[0], 3)?, "fault");
    assert_eq!(rt; outcome(alloc, b"abc", &[1], 3)?, "fault");
    assert_eq!(rt; outcome(alloc, b"abc", &[2], 3)?, "all");
    Ok(())
}

#[test]
fn a_failed_call_takes_nothing(rt: HostRuntime) -> Result<(), Fail> {
    let alloc = rt.alloc();
    let bytes = Vec::from_slice(alloc, b"ab")?;
    let failing = Vec::from_slice(alloc, &[1])?;
    let mut source = MemorySource::new(bytes, failing);
    let mut buf = [0; 1];
    let mut told = String::new(alloc);
    for _ in 0..4 {
        match source.read(&mut buf) {
            Ok(0) => told.push_str("end")?,
            Ok(_) => told.push_str(if buf[0] == b'a' { "a" } else { "b" })?,
            Err(Failed) => told.push_str("-")?,
        }
    }
    assert_eq!(rt; told.as_str(), "a-bend");
    Ok(())
}

#[test]
fn memory_is_written(rt: HostRuntime) -> Result<(), Fail> {
    let alloc = rt.alloc();
    let mut out = [0; 5];
    let mut sink = MemorySink::new(&mut out, Vec::from_slice(alloc, &[1])?);
    assert!(rt; write_all(&mut sink, b"ab").is_ok());
    assert!(rt; write_all(&mut sink, b"cd").is_err());
    assert!(rt; write_all(&mut sink, b"efgh").is_err());
    assert_eq!(rt; sink.bytes(), b"abefg".as_slice());
    Ok(())
}

#[test]
fn a_byte_at_a_time(rt: HostRuntime) -> Result<(), Fail> {
    let mut out = [0; 5];
    let mut sink = ByteByByte {
        out: SureSink::new(&mut out),
    };
    assert!(rt; write_all(&mut sink, b"abc").is_ok());
    assert_eq!(rt; sink.out.written(), 3);
    assert_eq!(rt; out, *b"abc\0\0");
    Ok(())
}

#[test]
fn streams_of_std(rt: HostRuntime) -> Result<(), Fail> {
    let alloc = rt.alloc();
    let mut stream = VecDeque::new(alloc);
    assert!(rt; write_all(&mut WriteSink::new(&mut stream), b"hello").is_ok());
    let read = read_all(alloc, &mut ReadSource::new(&mut stream), 5)?;
    assert_eq!(rt; read.as_slice(), b"hello".as_slice());
    assert!(rt; write_all(&mut WriteSink::new(Broken { takes: false }), b"x").is_err());
    assert!(rt; write_all(&mut WriteSink::new(Broken { takes: true }), b"x").is_err());
    assert!(rt; write_all(&mut WriteSink::new(Broken { takes: false }), b"").is_ok());
    let mut sure = SureSource::new(read);
    assert_eq!(rt; read_all(alloc, &mut sure, 5)?.len(), 5);
    Ok(())
}
