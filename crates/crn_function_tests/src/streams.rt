//! Tests of crn_io.

use crn_io::{
    CountSink, Failed, MemSink, MemSource, PlainSource, ReadAllError, StdSink, StdSource, read_all,
    write_all,
};
use std::alloc::Global;
use std::io::{self, ErrorKind, Read, Write};
use std::test::Fail;

fn bytes_of(alloc: Global, text: &[u8]) -> Result<Vec<u8>, Fail> {
    let mut bytes = Vec::new(alloc);
    bytes.extend_from_slice(text)?;
    Ok(bytes)
}

#[test]
fn reads_all_of_plain_bytes(rt: HostRuntime) -> Result<(), Fail> {
    let alloc = rt.alloc();
    let mut source = PlainSource::new(bytes_of(alloc, b"some bytes")?);
    let bytes = read_all(alloc, &mut source, 10)?;
    assert!(rt; bytes.as_slice() == b"some bytes".as_slice());
    Ok(())
}

#[test]
fn stops_one_byte_after_the_limit(rt: HostRuntime) -> Result<(), Fail> {
    let alloc = rt.alloc();
    let mut source = PlainSource::new(bytes_of(alloc, b"some bytes")?);
    assert!(rt; read_all(alloc, &mut source, 6) == Err(ReadAllError::TooLong));
    let rest = read_all(alloc, &mut source, 6)?;
    assert!(rt; rest.as_slice() == b"tes".as_slice());
    Ok(())
}

#[test]
fn the_second_read_fails(rt: HostRuntime) -> Result<(), Fail> {
    let alloc = rt.alloc();
    let bytes = bytes_of(alloc, b"ten bytes and more")?;
    let mut source = MemSource::new(bytes, 8, vec![in alloc; 2]?);
    assert!(rt; source.faults() == 0);
    assert!(rt; read_all(alloc, &mut source, 100) == Err(ReadAllError::Fault));
    assert!(rt; source.faults() == 1);
    let rest = read_all(alloc, &mut source, 100)?;
    assert!(rt; rest.as_slice() == b"s and more".as_slice());
    assert!(rt; source.faults() == 1);
    Ok(())
}

#[test]
fn the_second_write_fails(rt: HostRuntime) -> Result<(), Fail> {
    let alloc = rt.alloc();
    let mut sink = MemSink::new(alloc, 100, 10, vec![in alloc; 2]?)?;
    assert!(rt; write_all(&mut sink, b"species 16 reactions 13") == Err(Failed));
    assert!(rt; sink.written() == b"species 16".as_slice());
    assert!(rt; sink.faults() == 1);
    assert!(rt; write_all(&mut sink, b" reactions 13") == Ok(()));
    assert!(rt; sink.written() == b"species 16 reactions 13".as_slice());
    assert!(rt; sink.faults() == 1);
    Ok(())
}

#[test]
fn a_full_sink_fails(rt: HostRuntime) -> Result<(), Fail> {
    let alloc = rt.alloc();
    let mut sink = MemSink::new(alloc, 4, 10, Vec::new(alloc))?;
    assert!(rt; write_all(&mut sink, b"four") == Ok(()));
    assert!(rt; write_all(&mut sink, b"") == Ok(()));
    assert!(rt; sink.faults() == 0);
    assert!(rt; write_all(&mut sink, b"!") == Err(Failed));
    assert!(rt; sink.faults() == 1);
    assert!(rt; sink.written() == b"four".as_slice());
    Ok(())
}

#[test]
fn counts_bytes(rt: HostRuntime) {
    let mut sink = CountSink::new();
    assert!(rt; write_all(&mut sink, b"seven b") == Ok(()));
    assert!(rt; write_all(&mut sink, b"three") == Ok(()));
    assert!(rt; sink.count() == 12);
}

// A reader that gives two bytes a call, of "abcdef", and fails at one call.
#[derive(Drop)]
struct Stumbling {
    at: usize,
    calls: usize,
    fails: usize,
}

impl Read for Stumbling {
    fn read(&mut self, buf: &mut [u8]) -> io::Result<usize> {
        self.calls = self.calls.saturating_add(1);
        if self.calls == self.fails {
            return Err(io::Error::from(ErrorKind::TimedOut));
        }
        let rest = b"abcdef".get(self.at..).unwrap_or(&[]);
        let count = rest.len().min(buf.len()).min(2);
        buf[..count].copy_from_slice(&rest[..count]);
        self.at = self.at.saturating_add(count);
        Ok(count)
    }
}

#[test]
fn reads_from_a_reader(rt: HostRuntime) -> Result<(), Fail> {
    let alloc = rt.alloc();
    let mut source = StdSource::new(b"of a slice".as_slice());
    let bytes = read_all(alloc, &mut source, 100)?;
    assert!(rt; bytes.as_slice() == b"of a slice".as_slice());
    let mut source = StdSource::new(Stumbling {
        at: 0,
        calls: 0,
        fails: 2,
    });
    assert!(rt; read_all(alloc, &mut source, 100) == Err(ReadAllError::Fault));
    let rest = read_all(alloc, &mut source, 100)?;
    assert!(rt; rest.as_slice() == b"cdef".as_slice());
    Ok(())
}

#[derive(Clone, Copy, PartialEq)]
enum Trouble {
    Error,
    Nothing,
    Flush,
}

// A writer that takes three bytes a call, and has a trouble at its second call.
#[derive(Drop)]
struct Halting {
    bytes: Vec<u8>,
    calls: usize,
    trouble: Trouble,
}

impl Halting {
    fn is_now(&self, trouble: Trouble) -> bool {
        self.calls == 2 && self.trouble == trouble
    }
}

impl Write for Halting {
    fn write(&mut self, buf: &[u8]) -> io::Result<usize> {
        self.calls = self.calls.saturating_add(1);
        if self.is_now(Trouble::Error) {
            return Err(io::Error::from(ErrorKind::TimedOut));
        }
        if self.is_now(Trouble::Nothing) {
            return Ok(0);
        }
        let count = buf.len().min(3);
        self.bytes.extend_from_slice(&buf[..count])?;
        Ok(count)
    }

    fn flush(&mut self) -> io::Result<()> {
        if self.is_now(Trouble::Flush) {
            return Err(io::Error::from(ErrorKind::TimedOut));
        }
        Ok(())
    }
}

#[test]
fn writes_into_a_writer(rt: HostRuntime) -> Result<(), Fail> {
    let alloc = rt.alloc();
    let mut bytes = Vec::new(alloc);
    let mut sink = StdSink::new(&mut bytes);
    assert!(rt; write_all(&mut sink, b"into a vector") == Ok(()));
    drop(sink);
    assert!(rt; bytes.as_slice() == b"into a vector".as_slice());
    Ok(())
}

#[test]
fn a_writer_in_trouble_is_a_fault(rt: HostRuntime) -> Result<(), Fail> {
    let alloc = rt.alloc();
    for (trouble, wanted) in [
        (Trouble::Error, b"012".as_slice()),
        (Trouble::Nothing, b"012".as_slice()),
        (Trouble::Flush, b"012345".as_slice()),
    ] {
        let mut writer = Halting {
            bytes: Vec::new(alloc),
            calls: 0,
            trouble,
        };
        let mut sink = StdSink::new(&mut writer);
        assert!(rt; write_all(&mut sink, b"0123456789") == Err(Failed));
        drop(sink);
        assert!(rt; writer.bytes.as_slice() == wanted);
    }
    Ok(())
}
