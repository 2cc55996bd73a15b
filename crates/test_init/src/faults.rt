// Calls that fail, and what a crash leaves.
use crate::tests::{DEFINITION, JOURNAL, files_of, holds};
use objsheet_check::init;
use objsheet_status::{DISK_FAILED, DONE, REFUSED, SINK_FAILED, SOURCE_FAILED};
use sheet_outside::{MemorySink, MemorySource};
use sheet_outside_disks::MemoryDisk;
use sheet_values::NoMemory;
use std::alloc::Global;
use std::test::Fail;

/// How many calls of the disk `init` makes where there is no file.
const CALLS: u64 = 9;

/// What stands wherever any byte may stand.
const FILLS: [u8; 4] = [0, 1, 7, 255];

// The call of the source, of the sink and of the disk that fails; 0 for none.
#[derive(Clone, Copy)]
struct Failing {
    read: u64,
    write: u64,
    call: u64,
}

const NONE: Failing = Failing {
    read: 0,
    write: 0,
    call: 0,
};

// Whether `init` of a definition, where these calls fail, ends with that status and writes that. Gives the disk too.
fn ends(
    alloc: Global,
    definition: &[u8],
    failing: Failing,
    status: u8,
    output: &[u8],
) -> Result<(bool, MemoryDisk), Fail> {
    let mut source = MemorySource::new(definition.to_vec(alloc)?, [failing.read].to_vec(alloc)?);
    let mut sink = MemorySink::new(Vec::new(alloc), [failing.write].to_vec(alloc)?);
    let files = files_of(alloc, None)?;
    let mut disk = MemoryDisk::new(alloc, files, [failing.call].to_vec(alloc)?);
    let ended = init(alloc, b"J", b"op", &mut source, &mut sink, &mut disk);
    let is_written = sink.bytes().is_some_and(|bytes| bytes == output);
    Ok((ended == status && is_written, disk))
}

// Whether each crash leaves no journal, or the whole one.
fn leaves_none_or_one(disk: &MemoryDisk) -> Result<bool, NoMemory> {
    for call in 1..=CALLS {
        for fill in FILLS {
            let image = disk.image(call, fill)?;
            let is_begun = image.len() > 9 && image.starts_with(b"OSHEETJ1\x01".as_slice());
            if is_begun && image.as_slice() != JOURNAL {
                return Ok(false);
            }
        }
    }
    Ok(true)
}

#[test]
fn each_read_fails(rt: HostRuntime) -> Result<(), Fail> {
    let alloc = rt.alloc();
    for read in [1u64, 2] {
        let failing = Failing { read, ..NONE };
        let (is_so, mut disk) = ends(alloc, DEFINITION, failing, SOURCE_FAILED, b"")?;
        assert!(rt; is_so && holds(&mut disk, None), "read {read}");
    }
    Ok(())
}

#[test]
fn the_write_fails_once_the_journal_is_made(rt: HostRuntime) -> Result<(), Fail> {
    let failing = Failing { write: 1, ..NONE };
    let (is_so, mut disk) = ends(rt.alloc(), DEFINITION, failing, SINK_FAILED, b"")?;
    assert!(rt; is_so && holds(&mut disk, Some(JOURNAL)));
    Ok(())
}

#[test]
fn the_write_of_a_refusal_fails(rt: HostRuntime) -> Result<(), Fail> {
    let failing = Failing { write: 1, ..NONE };
    let (is_so, mut disk) = ends(rt.alloc(), b"view", failing, SINK_FAILED, b"")?;
    assert!(rt; is_so && holds(&mut disk, None));
    Ok(())
}

#[test]
fn each_call_of_the_disk_fails(rt: HostRuntime) -> Result<(), Fail> {
    let alloc = rt.alloc();
    for call in 1..=CALLS {
        let failing = Failing { call, ..NONE };
        let (is_so, disk) = ends(alloc, DEFINITION, failing, DISK_FAILED, b"")?;
        assert!(rt; is_so && leaves_none_or_one(&disk)?, "call {call}");
    }
    Ok(())
}

#[test]
fn no_call_behind_the_last_is_made(rt: HostRuntime) -> Result<(), Fail> {
    let failing = Failing {
        call: CALLS + 1,
        ..NONE
    };
    let (is_so, disk) = ends(rt.alloc(), DEFINITION, failing, DONE, b"ok\n")?;
    assert!(rt; is_so && leaves_none_or_one(&disk)?);
    Ok(())
}

#[test]
fn a_refused_definition_calls_no_disk(rt: HostRuntime) -> Result<(), Fail> {
    let failing = Failing { call: 1, ..NONE };
    let line = b"refused: expected other, line 1, offset 4\n";
    let (is_so, _) = ends(rt.alloc(), b"view", failing, REFUSED, line)?;
    assert!(rt; is_so);
    Ok(())
}

#[test]
fn every_crash_leaves_the_journal_once_it_is_made(rt: HostRuntime) -> Result<(), Fail> {
    let (is_so, disk) = ends(rt.alloc(), DEFINITION, NONE, DONE, b"ok\n")?;
    assert!(rt; is_so);
    for fill in FILLS {
        assert!(rt;
            disk.image(CALLS, fill)?.as_slice() == JOURNAL,
            "fill {fill}"
        );
    }
    Ok(())
}
