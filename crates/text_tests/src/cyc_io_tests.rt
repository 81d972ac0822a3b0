//! Ten bytes through each source and each sink.
use cyc_io::{
    MemSink, MemSource, PlainSink, PlainSource, ReadAll, StdSink, StdSource, WriteFault, read_all,
    write_all,
};
use std::alloc::Global;
use std::test::Fail;

static DIGITS: &[u8] = b"0123456789";

// Reads of four, four and two bytes, and one that meets the end.
#[test]
fn sources_in_memory(rt: HostRuntime) -> Result<(), Fail> {
    let alloc = rt.alloc();
    for (failing, limit, answer, left, calls, faults) in [
        (9, 10, Ok(10), 0, 4, 0),
        (5, 10, Ok(10), 0, 4, 0),
        (1, 10, Err(ReadAll::ReadFault), 10, 1, 1),
        (3, 10, Err(ReadAll::ReadFault), 2, 3, 1),
        (4, 10, Err(ReadAll::ReadFault), 0, 4, 1),
        (9, 9, Err(ReadAll::TooLarge), 0, 3, 0),
        (9, 5, Err(ReadAll::TooLarge), 4, 2, 0),
        (3, 5, Err(ReadAll::TooLarge), 4, 2, 0),
    ] {
        let bytes = Vec::from_slice(alloc, DIGITS)?;
        let mut src = MemSource::new(bytes, 4, vec![in alloc; failing]?);
        let read = read_all(alloc, &mut src, limit).map(|all| all.len());
        let state = (src.left().len(), src.calls(), src.faults());
        assert!(rt;
            read == answer && state == (left, calls, faults),
            "call {failing}, limit {limit}"
        );
    }
    Ok(())
}

// Writes of four, four and two bytes.
#[test]
fn sinks_in_memory(rt: HostRuntime) -> Result<(), Fail> {
    let alloc = rt.alloc();
    for (failing, room, answer, written, calls, faults) in [
        (9, 10, Ok(()), 10, 3, 0),
        (4, 10, Ok(()), 10, 3, 0),
        (1, 10, Err(WriteFault), 0, 1, 1),
        (3, 10, Err(WriteFault), 8, 3, 1),
        (9, 9, Err(WriteFault), 9, 4, 1),
        (9, 8, Err(WriteFault), 8, 3, 1),
    ] {
        let mut sink = MemSink::new(alloc, room, 4, vec![in alloc; failing]?)?;
        let wrote = write_all(&mut sink, DIGITS);
        let state = (sink.written().len(), sink.calls(), sink.faults());
        assert!(rt;
            wrote == answer
                && DIGITS.starts_with(sink.written())
                && state == (written, calls, faults),
            "call {failing}, room {room}"
        );
    }
    Ok(())
}

/// Whether what a source of the standard library gives comes out of a sink of it.
fn go_through_std(alloc: Global) -> Result<bool, Fail> {
    let mut src = StdSource::new(DIGITS);
    let all = read_all(alloc, &mut src, 10)?;
    let mut text: Vec<u8> = Vec::new(alloc);
    let mut sink = StdSink::new(&mut text);
    let wrote = write_all(&mut sink, all.as_slice());
    Ok(wrote.is_ok() && text.as_slice() == DIGITS)
}

/// Whether a plain source gives all.
fn are_read(alloc: Global) -> Result<bool, Fail> {
    let mut src = PlainSource::new(Vec::from_slice(alloc, DIGITS)?, 3);
    let all = read_all(alloc, &mut src, 10)?;
    Ok(src.left().is_empty() && all.as_slice() == DIGITS)
}

/// Whether a plain sink with room for fifteen bytes takes the digits once, and half of them a second time.
fn are_written(alloc: Global) -> Result<bool, Fail> {
    let mut sink = PlainSink::new(alloc, 15, 3)?;
    let first = write_all(&mut sink, DIGITS);
    let second = write_all(&mut sink, DIGITS);
    let is_full = sink.written() == b"012345678901234".as_slice() && sink.faults() == 1;
    Ok(first.is_ok() && second.is_err() && is_full)
}

#[test]
fn std_and_plain_ones(rt: HostRuntime) -> Result<(), Fail> {
    let alloc = rt.alloc();
    assert!(rt; go_through_std(alloc)? && are_read(alloc)? && are_written(alloc)?);
    Ok(())
}
