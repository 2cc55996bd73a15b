// Readers and writers that fail.
use sheet_outside::{Sink, Source, StdSink, StdSource};
use std::fs::{File, OpenOptions};
use std::test::Fail;

// A folder can be opened, and not read.
#[test]
fn a_reader_that_fails(rt: HostRuntime) -> Result<(), Fail> {
    let mut source = StdSource::new(File::open(&rt, ".")?);
    let mut piece = [7u8; 4];
    assert!(rt; source.read(&mut piece).is_err());
    assert!(rt; source.read(&mut piece).is_err());
    Ok(())
}

// A file that is opened only for reading takes no byte.
#[test]
fn a_writer_that_fails(rt: HostRuntime) -> Result<(), Fail> {
    let made = OpenOptions::new()
        .write(true)
        .create(true)
        .open(&rt, "taken")?;
    drop(made);
    let mut sink = StdSink::new(File::open(&rt, "taken")?);
    assert!(rt; sink.write(b"abc").is_err());
    assert!(rt; sink.write(b"c").is_err());
    Ok(())
}
