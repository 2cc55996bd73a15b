use sheet_lines::{LineEnd, LineReader, ReadStop, read_to_divider, without_return, write_all};
use sheet_outside::{Failed, MemorySource, SureSink, SureSource};
use sheet_values::{LONGEST_DEFINITION, NoMemory};
use std::test::Fail;

#[test]
fn lines_come_one_after_another(rt: HostRuntime) -> Result<(), Fail> {
    let alloc = rt.alloc();
    let mut source = SureSource::new(b"ab\r\n\nabcdef\nc".to_vec(alloc)?);
    let mut reader = LineReader::new(alloc)?;
    let mut line = Vec::new(alloc);
    assert!(rt; reader.next_line(&mut source, &mut line, 4) == Ok(LineEnd::Feed));
    assert_eq!(rt; without_return(line.as_slice()), b"ab".as_slice());
    assert!(rt; reader.next_line(&mut source, &mut line, 4) == Ok(LineEnd::Feed));
    assert!(rt; line.is_empty());
    assert!(rt; reader.next_line(&mut source, &mut line, 4) == Ok(LineEnd::Feed));
    assert_eq!(rt; line.as_slice(), b"abcd".as_slice());
    assert!(rt; reader.next_line(&mut source, &mut line, 4) == Ok(LineEnd::Input));
    assert_eq!(rt; line.as_slice(), b"c".as_slice());
    assert!(rt; reader.next_line(&mut source, &mut line, 4) == Ok(LineEnd::Nothing));
    Ok(())
}

#[test]
fn a_definition_ends_at_the_divider(rt: HostRuntime) -> Result<(), Fail> {
    let alloc = rt.alloc();
    let mut source = SureSource::new(b"a\n%%%\n%%\r\nb\n".to_vec(alloc)?);
    let mut reader = LineReader::new(alloc)?;
    let text = read_to_divider(alloc, &mut reader, &mut source)?;
    assert!(rt; text.is_some_and(|t| t.as_slice() == b"a\n%%%\n".as_slice()));
    let mut line = Vec::new(alloc);
    assert!(rt; reader.next_line(&mut source, &mut line, 9) == Ok(LineEnd::Feed));
    assert_eq!(rt; line.as_slice(), b"b".as_slice());
    Ok(())
}

#[test]
fn an_endless_definition_is_too_long(rt: HostRuntime) -> Result<(), Fail> {
    let alloc = rt.alloc();
    let mut source = SureSource::new(vec![in alloc; b'a'; LONGEST_DEFINITION + 20_000]?);
    let mut reader = LineReader::new(alloc)?;
    let text = read_to_divider(alloc, &mut reader, &mut source)?;
    assert!(rt; text.is_none());
    Ok(())
}

#[test]
fn a_failing_source_stops_a_reader(rt: HostRuntime) -> Result<(), Fail> {
    let alloc = rt.alloc();
    let mut source = MemorySource::new(b"a\n".to_vec(alloc)?, [2].to_vec(alloc)?);
    let mut reader = LineReader::new(alloc)?;
    let mut line = Vec::new(alloc);
    assert!(rt; reader.next_line(&mut source, &mut line, 9) == Ok(LineEnd::Feed));
    assert!(rt; reader.next_line(&mut source, &mut line, 9) == Err(ReadStop::Source));
    Ok(())
}

#[test]
fn a_text_is_written_whole(rt: HostRuntime) -> Result<(), Fail> {
    let mut sink = SureSink::new(Vec::new(rt.alloc()));
    assert!(rt; write_all(&mut sink, b"abc").is_ok());
    assert!(rt; sink.bytes().is_some_and(|b| b == b"abc".as_slice()));
    Ok(())
}

#[test]
fn stops(rt: HostRuntime) {
    assert_eq!(rt; ReadStop::from(Failed), ReadStop::Source);
    assert_eq!(rt; ReadStop::from(NoMemory), ReadStop::NoMemory);
}
