// Images of what a crash may leave.
use sheet_outside::{Disk, Failed};
use sheet_outside_disks::{Files, MemoryDisk};
use std::test::Fail;

// Whether a crash behind this call may leave these bytes, with the fill where any may stand.
fn leaves(disk: &MemoryDisk, call: u64, fill: u8, wanted: &[u8]) -> bool {
    disk.image(call, fill)
        .is_ok_and(|image| image.as_slice() == wanted)
}

#[test]
fn any_bytes_are_left_of_what_no_sync_settled(rt: HostRuntime) -> Result<(), Fail> {
    let alloc = rt.alloc();
    let mut files = Files::new(alloc);
    files.push(b"J", b"abcd")?;
    let mut disk = MemoryDisk::new(alloc, files, Vec::new(alloc));
    assert!(rt; disk.open(b"J", false).is_ok_and(|found| found));
    assert!(rt; disk.write_at(1, b"XY").is_ok());
    assert!(rt; disk.write_at(5, b"Z").is_ok());
    assert!(rt; disk.sync().is_ok());
    for (call, wanted) in [
        (0u64, b"".as_slice()),
        (1, b"abcd"),
        (2, b"a??d"),
        (3, b"a??d??"),
        (4, b"aXYd\0Z"),
        (5, b""),
    ] {
        assert!(rt; leaves(&disk, call, b'?', wanted), "call {call}");
    }
    assert!(rt; leaves(&disk, 3, 255, b"a\xFF\xFFd\xFF\xFF"));
    Ok(())
}

#[test]
fn a_failed_write_unsettles_its_range_and_a_failed_sync_settles_nothing(
    rt: HostRuntime,
) -> Result<(), Fail> {
    let alloc = rt.alloc();
    let mut files = Files::new(alloc);
    files.push(b"J", b"abcd")?;
    let mut disk = MemoryDisk::new(alloc, files, [2, 3].to_vec(alloc)?);
    assert!(rt; disk.open(b"J", false).is_ok_and(|found| found));
    assert!(rt; disk.write_at(3, b"XY") == Err(Failed));
    assert!(rt; disk.sync() == Err(Failed));
    assert!(rt; disk.sync().is_ok());
    for (call, wanted) in [(2u64, b"abc??".as_slice()), (3, b"abc??"), (4, b"abcd")] {
        assert!(rt; leaves(&disk, call, b'?', wanted), "call {call}");
    }
    Ok(())
}

#[test]
fn nothing_is_settled_of_a_file_that_was_just_made(rt: HostRuntime) {
    let alloc = rt.alloc();
    let mut disk = MemoryDisk::new(alloc, Files::new(alloc), Vec::new(alloc));
    assert!(rt; disk.open(b"J", true).is_ok_and(|found| found));
    assert!(rt; disk.write_at(1, b"b").is_ok());
    assert!(rt; disk.sync().is_ok());
    assert!(rt; disk.open(b"K", false).is_ok_and(|found| !found));
    for (call, wanted) in [(1u64, b"".as_slice()), (2, b"??"), (3, b"\0b"), (4, b"")] {
        assert!(rt; leaves(&disk, call, b'?', wanted), "call {call}");
    }
}

#[test]
fn an_image_is_of_the_file_that_was_open_then(rt: HostRuntime) -> Result<(), Fail> {
    let alloc = rt.alloc();
    let mut files = Files::new(alloc);
    files.push(b"K", b"xyz")?;
    let mut disk = MemoryDisk::new(alloc, files, Vec::new(alloc));
    assert!(rt; disk.open(b"J", true).is_ok_and(|found| found));
    assert!(rt; disk.write_at(0, b"ab").is_ok());
    assert!(rt; disk.open(b"K", false).is_ok_and(|found| found));
    assert!(rt; disk.sync().is_ok());
    assert!(rt; disk.open(b"J", false).is_ok_and(|found| found));
    for (call, wanted) in [(2u64, b"??".as_slice()), (4, b"xyz"), (5, b"??")] {
        assert!(rt; leaves(&disk, call, b'?', wanted), "call {call}");
    }
    Ok(())
}
