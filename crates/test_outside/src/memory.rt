// Sources and sinks over memory, and over streams that do not fail.
use sheet_outside::{
    Failed, MemorySink, MemorySource, Sink, Source, StdSink, StdSource, SureSink, SureSource,
    WriteRefusal,
};
use sheet_values::NoMemory;
use std::test::Fail;

#[test]
fn a_sure_source_gives_its_bytes_in_pieces(rt: HostRuntime) -> Result<(), Fail> {
    let mut source = SureSource::new(b"abcde".to_vec(rt.alloc())?);
    let mut piece = [0u8; 3];
    assert!(rt; source.read(&mut piece).is_ok_and(|n| n == 3));
    assert_eq!(rt; piece.as_slice(), b"abc".as_slice());
    assert!(rt; source.read(&mut piece).is_ok_and(|n| n == 2));
    assert!(rt; source.read(&mut piece).is_ok_and(|n| n == 0));
    Ok(())
}

#[test]
fn a_sure_sink_holds_what_was_written(rt: HostRuntime) -> Result<(), Fail> {
    let mut sink = SureSink::new(Vec::new(rt.alloc()));
    assert!(rt; sink.write(b"ab").is_ok_and(|n| n == 2));
    assert!(rt; sink.write(b"c").is_ok_and(|n| n == 1));
    assert!(rt; sink.bytes().is_some_and(|b| b == b"abc".as_slice()));
    Ok(())
}

#[test]
fn named_reads_fail_and_take_nothing(rt: HostRuntime) -> Result<(), Fail> {
    let alloc = rt.alloc();
    let mut source = MemorySource::new(b"abc".to_vec(alloc)?, [2].to_vec(alloc)?);
    let mut piece = [0u8; 2];
    assert!(rt; source.read(&mut piece).is_ok_and(|n| n == 2));
    assert!(rt; source.read(&mut piece).is_err());
    assert!(rt; source.read(&mut piece).is_ok_and(|n| n == 1));
    assert_eq!(rt; piece[0], b'c');
    assert!(rt; source.read(&mut piece).is_ok_and(|n| n == 0));
    Ok(())
}

#[test]
fn named_writes_fail_and_write_nothing(rt: HostRuntime) -> Result<(), Fail> {
    let alloc = rt.alloc();
    let mut sink = MemorySink::new(b"a".to_vec(alloc)?, [1, 3].to_vec(alloc)?);
    assert!(rt; sink.write(b"b").is_err());
    assert!(rt; sink.write(b"c").is_ok_and(|n| n == 1));
    assert!(rt; sink.write(b"d").is_err());
    assert!(rt; sink.bytes().is_some_and(|b| b == b"ac".as_slice()));
    Ok(())
}

#[test]
fn a_reader_gives_its_bytes(rt: HostRuntime) -> Result<(), Fail> {
    let mut source = StdSource::new(b"abc".as_slice());
    let mut piece = [0u8; 4];
    assert!(rt; source.read(&mut piece).is_ok_and(|n| n == 3));
    assert!(rt; source.read(&mut piece).is_ok_and(|n| n == 0));
    Ok(())
}

#[test]
fn a_writer_that_takes_nothing_has_failed(rt: HostRuntime) -> Result<(), Fail> {
    let mut room = [0u8; 2];
    let mut sink = StdSink::new(room.as_mut_slice());
    assert!(rt; sink.write(b"abc").is_ok_and(|n| n == 2));
    assert!(rt; sink.write(b"c").is_err());
    assert!(rt; sink.write(b"").is_ok_and(|n| n == 0));
    Ok(())
}

#[test]
fn refusals_of_a_write(rt: HostRuntime) {
    assert_eq!(rt; WriteRefusal::from(Failed), WriteRefusal::WriteFault);
    assert_eq!(rt; WriteRefusal::from(NoMemory), WriteRefusal::NoMemory);
}
