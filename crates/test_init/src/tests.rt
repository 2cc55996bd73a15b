// What `init` writes, and the file that it makes.
use objsheet_check::init;
use objsheet_status::{DONE, REFUSED};
use sheet_outside::{Disk, SureSink, SureSource};
use sheet_outside_disks::{Files, SureDisk};
use sheet_values::LONGEST_DEFINITION;
use std::alloc::Global;
use std::test::Fail;

/// A definition of 68 bytes.
pub(crate) const DEFINITION: &[u8] =
    b"state S : truth one = false\nprocedure turn(s : truth) { set S = s }\n";

/// Its journal, of 86 bytes, where the operator's key is `op`.
pub(crate) const JOURNAL: &[u8] =
    b"OSHEETJ1\x01\x00\x00\x00\x47\x00\x02opstate S : truth one = false\nprocedure turn(s : truth) { set S = s }\n\x00";

/// The file J with these bytes; no file where there are none.
pub(crate) fn files_of(alloc: Global, bytes: Option<&[u8]>) -> Result<Files, Fail> {
    let mut files = Files::new(alloc);
    if let Some(bytes) = bytes {
        files.push(b"J", bytes)?;
    }
    Ok(files)
}

/// Whether the file J has these bytes; whether there is none where there are none.
pub(crate) fn holds<D: Disk>(disk: &mut D, wanted: Option<&[u8]>) -> bool {
    if !disk.open(b"J", false).is_ok_and(|found| found) {
        return wanted.is_none();
    }
    let mut piece = [0u8; 200];
    let Ok(length) = disk.length() else {
        return false;
    };
    let Ok(count) = disk.read_at(0, &mut piece) else {
        return false;
    };
    length == count as u64 && wanted == Some(&piece[..count])
}

// Whether `init` of a definition over a file, or none, ends with that status, writes that, and leaves the file with those bytes.
fn leaves(
    alloc: Global,
    definition: &[u8],
    file: Option<&[u8]>,
    status: u8,
    output: &[u8],
    left: Option<&[u8]>,
) -> Result<bool, Fail> {
    let mut source = SureSource::new(definition.to_vec(alloc)?);
    let mut sink = SureSink::new(Vec::new(alloc));
    let mut disk = SureDisk::new(alloc, files_of(alloc, file)?);
    let ended = init(alloc, b"J", b"op", &mut source, &mut sink, &mut disk);
    let is_written = sink.bytes().is_some_and(|bytes| bytes == output);
    Ok(ended == status && is_written && holds(&mut disk, left))
}

#[test]
fn a_journal_is_made(rt: HostRuntime) -> Result<(), Fail> {
    let made = leaves(rt.alloc(), DEFINITION, None, DONE, b"ok\n", Some(JOURNAL))?;
    assert!(rt; made);
    Ok(())
}

#[test]
fn a_file_of_nine_bytes_is_written_over(rt: HostRuntime) -> Result<(), Fail> {
    let alloc = rt.alloc();
    for file in [b"".as_slice(), b"x", b"OSHEETJ1\x01", b"123456789"] {
        assert!(rt; leaves(alloc, DEFINITION, Some(file), DONE, b"ok\n", Some(JOURNAL))?);
    }
    Ok(())
}

#[test]
fn what_a_stopped_beginning_leaves_is_written_over(rt: HostRuntime) -> Result<(), Fail> {
    let alloc = rt.alloc();
    for file in [
        b"OSHEETJ1\x00".as_slice(),
        b"OSHEETJ1\x00\x00\x00\x00\x47\x00\x02op",
        b"OSHEETJ1\x07\x01",
    ] {
        assert!(rt; leaves(alloc, DEFINITION, Some(file), DONE, b"ok\n", Some(JOURNAL))?);
    }
    Ok(())
}

#[test]
fn a_file_that_is_there_stays(rt: HostRuntime) -> Result<(), Fail> {
    let alloc = rt.alloc();
    let line = b"refused: already there\n";
    for file in [
        JOURNAL,
        b"1234567890".as_slice(),
        b"OSHEETJ1\x01\x00",
        b"OSHEETJ2\x00\x00",
    ] {
        assert!(rt; leaves(alloc, DEFINITION, Some(file), REFUSED, line, Some(file))?);
    }
    Ok(())
}

#[test]
fn a_refused_definition_makes_no_file(rt: HostRuntime) -> Result<(), Fail> {
    let alloc = rt.alloc();
    let unknown = b"refused: unknown name, line 1\n";
    assert!(rt; leaves(alloc, b"formula A = B", None, REFUSED, unknown, None)?);
    let lacking = b"refused: expected other, line 1, offset 4\n";
    assert!(rt; leaves(alloc, b"view", None, REFUSED, lacking, None)?);
    let not_utf8 = b"refused: not utf-8, offset 0\n";
    assert!(rt; leaves(alloc, b"\xFF", None, REFUSED, not_utf8, None)?);
    Ok(())
}

#[test]
fn a_refused_definition_leaves_a_file(rt: HostRuntime) -> Result<(), Fail> {
    let alloc = rt.alloc();
    let unknown = b"refused: unknown name, line 1\n";
    for file in [b"".as_slice(), b"OSHEETJ1\x00", JOURNAL] {
        assert!(rt;
            leaves(
                alloc,
                b"formula A = B",
                Some(file),
                REFUSED,
                unknown,
                Some(file)
            )?
        );
    }
    Ok(())
}

#[test]
fn the_greatest_length(rt: HostRuntime) -> Result<(), Fail> {
    let alloc = rt.alloc();
    let mut definition = Vec::new(alloc);
    for _ in 0..LONGEST_DEFINITION {
        definition.push(b' ')?;
    }
    assert!(rt; makes(alloc, definition.as_slice(), DONE, b"ok\n")?);
    definition.push(b' ')?;
    let line = b"refused: too long, limit 262144\n";
    assert!(rt; makes(alloc, definition.as_slice(), REFUSED, line)?);
    Ok(())
}

// Whether `init` of a definition over no file, with a key of 64 bytes, ends with that status and writes that.
fn makes(alloc: Global, definition: &[u8], status: u8, output: &[u8]) -> Result<bool, Fail> {
    let mut source = SureSource::new(definition.to_vec(alloc)?);
    let mut sink = SureSink::new(Vec::new(alloc));
    let mut disk = SureDisk::new(alloc, Files::new(alloc));
    let key = [b'~'; 64];
    let ended = init(alloc, b"J", &key, &mut source, &mut sink, &mut disk);
    Ok(ended == status && sink.bytes().is_some_and(|bytes| bytes == output))
}
