//! Devices in memory, on their way and with their failures.
use cfs_io::{Failed, MemSink, MemSource, Sink, SureSink, read_within};
use std::alloc::Global;
use std::test::Fail;

// A source of ten bytes in pieces of three, whose second read fails.
fn failing(alloc: Global) -> Result<MemSource, Fail> {
    let bytes = Vec::from_slice(alloc, b"four lines")?;
    Ok(MemSource::new(bytes, 3, Vec::from_slice(alloc, &[2])?))
}

#[test]
fn a_source_in_memory_fails_once_and_goes_on(rt: HostRuntime) -> Result<(), Fail> {
    let mut source = failing(rt.alloc())?;
    assert!(rt; read_within(rt.alloc(), &mut source, 100).is_err());
    let rest = read_within(rt.alloc(), &mut source, 100);
    assert!(rt; matches!(&rest, Ok(bytes) if bytes.as_slice() == b"r lines".as_slice()));
    Ok(())
}

#[test]
fn a_sink_in_memory_takes_pieces_until_it_is_full(rt: HostRuntime) -> Result<(), Fail> {
    let fails = Vec::from_slice(rt.alloc(), &[2])?;
    let mut sink = MemSink::new(rt.alloc(), 4, 3, fails)?;
    let writes = [
        (b"abcdef".as_slice(), Ok(3)),
        (b"def".as_slice(), Err(Failed)),
        (b"def".as_slice(), Ok(1)),
        (b"ef".as_slice(), Err(Failed)),
    ];
    for (bytes, want) in writes {
        let is_some = !bytes.is_empty();
        assert!(rt; is_some);
        assert!(rt; sink.write(bytes) == want);
    }
    assert!(rt; sink.bytes() == b"abcd".as_slice());
    Ok(())
}

#[test]
fn a_sure_sink_counts(rt: HostRuntime) {
    let mut sink = SureSink::new();
    assert!(rt; sink.write(b"abc") == Ok(3));
    assert!(rt; sink.count() == 3);
}
