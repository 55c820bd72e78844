//! A text past the limit, and reads and writes that fail.
use super::{HALVES, HALVES_REPORT, owned};
use crate::status::Status;
use crate::top;
use crn_io::{MemSink, MemSource, PlainSource, Source};
use std::alloc::{AllocError, Global};
use std::test::Fail;

#[test]
fn refuses_a_text_past_the_limit(rt: HostRuntime) -> Result<(), Fail> {
    let bytes = vec![in rt.alloc(); b' '; 1_048_578]?;
    let mut source = PlainSource::new(bytes);
    let mut sink = MemSink::new(rt.alloc(), 4096, 1000, Vec::new(rt.alloc()))?;
    let words = owned(rt.alloc(), &["complete"])?;
    let status = top(rt.alloc(), &words, &mut source, &mut sink);
    assert_eq!(rt; status, Status::TextTooLong);
    assert!(rt; sink.written() == b"refused: text longer than 1048576 bytes\n".as_slice());
    let mut rest = [0u8; 4];
    assert_eq!(rt;
        source.read(&mut rest),
        Ok(1),
        "one byte past the limit was taken"
    );
    Ok(())
}

#[test]
fn tells_a_read_that_fails(rt: HostRuntime) -> Result<(), Fail> {
    let fails = vec![in rt.alloc(); 2]?;
    let mut source = MemSource::new(HALVES.as_bytes().to_vec(rt.alloc())?, 8, fails);
    let mut sink = MemSink::new(rt.alloc(), 4096, 1000, Vec::new(rt.alloc()))?;
    let words = owned(rt.alloc(), &["complete"])?;
    let status = top(rt.alloc(), &words, &mut source, &mut sink);
    assert_eq!(rt; status, Status::ReadFault);
    assert_eq!(rt; source.faults(), 1);
    assert_eq!(rt; sink.written().len(), 0);
    // Nothing was read after the fault.
    let mut rest = [0u8; 8];
    assert_eq!(rt; source.read(&mut rest), Ok(8));
    assert!(rt; rest.as_slice() == b" formula".as_slice());
    Ok(())
}

#[test]
fn tells_a_write_that_fails(rt: HostRuntime) -> Result<(), Fail> {
    let fails = vec![in rt.alloc(); 2]?;
    let mut source = PlainSource::new(HALVES.as_bytes().to_vec(rt.alloc())?);
    let mut sink = MemSink::new(rt.alloc(), 100, 10, fails)?;
    let words = owned(rt.alloc(), &["complete"])?;
    let status = top(rt.alloc(), &words, &mut source, &mut sink);
    assert_eq!(rt; status, Status::WriteFault);
    assert!(rt; sink.written() == b"species 16".as_slice());
    Ok(())
}

// How a completion of the halves ended, with the faults of its source and of its sink.
#[derive(Debug, Drop)]
struct Ended {
    status: Status,
    read_faults: u64,
    write_faults: u64,
    written: Vec<u8>,
}

// Completes the halves, read eight bytes a call and written ten a call, where these calls fail.
fn completed(
    alloc: Global,
    failing_reads: Vec<u64>,
    room: usize,
    failing_writes: Vec<u64>,
) -> Result<Ended, AllocError> {
    let mut source = MemSource::new(HALVES.as_bytes().to_vec(alloc)?, 8, failing_reads);
    let mut sink = MemSink::new(alloc, room, 10, failing_writes)?;
    let status = top(alloc, &owned(alloc, &["complete"])?, &mut source, &mut sink);
    Ok(Ended {
        status,
        read_faults: source.faults(),
        write_faults: sink.faults(),
        written: sink.written().to_vec(alloc)?,
    })
}

// Whether the whole report was written.
fn is_whole(ended: &Ended) -> bool {
    ended.status == Status::Done && ended.written.as_slice() == HALVES_REPORT.as_bytes()
}

// Whether the read is told to have failed, with nothing written.
fn tells_the_read(ended: &Ended) -> bool {
    ended.status == Status::ReadFault && ended.written.is_empty()
}

// Whether the write is told to have failed, with a proper prefix of the report written.
fn tells_the_write(ended: &Ended) -> bool {
    let report = HALVES_REPORT.as_bytes();
    let written = ended.written.as_slice();
    ended.status == Status::WriteFault
        && written.len() < report.len()
        && report.starts_with(written)
}

// The text of the halves is read in nine calls of eight bytes and one that tells its end. Whichever of them fails is told, and a call that is not made fails nothing.
#[test]
fn tells_each_read_that_fails(rt: HostRuntime) -> Result<(), Fail> {
    let alloc = rt.alloc();
    for call in 1..=20u64 {
        let ended = completed(alloc, vec![in alloc; call]?, 1000, Vec::new(alloc))?;
        let faults = if call <= 10 { 1 } else { 0 };
        assert_eq!(rt; ended.read_faults, faults, "{call}");
        assert_eq!(rt; ended.write_faults, 0, "{call}");
        assert_eq!(rt; tells_the_read(&ended), faults == 1, "{call}");
        assert_eq!(rt; is_whole(&ended), faults == 0, "{call}");
    }
    Ok(())
}

// The report of the halves has 245 bytes and is written in 25 calls. Whichever of them fails is told, after a part of the report.
#[test]
fn tells_each_write_that_fails(rt: HostRuntime) -> Result<(), Fail> {
    let alloc = rt.alloc();
    for call in 1..=40u64 {
        let ended = completed(alloc, Vec::new(alloc), 1000, vec![in alloc; call]?)?;
        let faults = if call <= 25 { 1 } else { 0 };
        assert_eq!(rt; ended.write_faults, faults, "{call}");
        assert_eq!(rt; ended.read_faults, 0, "{call}");
        assert_eq!(rt; tells_the_write(&ended), faults == 1, "{call}");
        assert_eq!(rt; is_whole(&ended), faults == 0, "{call}");
    }
    let ended = completed(alloc, Vec::new(alloc), 0, Vec::new(alloc))?;
    assert!(rt; tells_the_write(&ended));
    assert_eq!(rt; ended.written.len(), 0);
    assert_eq!(rt; ended.write_faults, 1);
    Ok(())
}
