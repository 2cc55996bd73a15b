// Disks in memory.
use sheet_outside::{Disk, Failed};
use sheet_outside_disks::{Files, MemoryDisk, SureDisk};
use std::test::Fail;

#[test]
fn a_file_is_found_or_made(rt: HostRuntime) -> Result<(), Fail> {
    let alloc = rt.alloc();
    let mut files = Files::new(alloc);
    files.push(b"K", b"xyz")?;
    let mut disk = SureDisk::new(alloc, files);
    assert!(rt; disk.open(b"J", false).is_ok_and(|found| !found));
    assert!(rt; disk.open(b"J", true).is_ok_and(|found| found));
    assert!(rt; disk.length().is_ok_and(|count| count == 0));
    assert!(rt; disk.open(b"K", true).is_ok_and(|found| found));
    assert!(rt; disk.length().is_ok_and(|count| count == 3));
    Ok(())
}

#[test]
fn what_was_written_is_read(rt: HostRuntime) {
    let alloc = rt.alloc();
    let mut disk = SureDisk::new(alloc, Files::new(alloc));
    assert!(rt; disk.open(b"J", true).is_ok_and(|found| found));
    assert!(rt; disk.write_at(0, b"abc").is_ok());
    assert!(rt; disk.write_at(2, b"de").is_ok());
    assert!(rt; disk.sync().is_ok());
    let mut piece = [0u8; 8];
    assert!(rt; disk.read_at(1, &mut piece).is_ok_and(|count| count == 3));
    assert_eq!(rt; &piece[..3], b"bde".as_slice());
    assert!(rt; disk.read_at(4, &mut piece).is_ok_and(|count| count == 0));
    assert!(rt; disk.read_at(9, &mut piece).is_ok_and(|count| count == 0));
    assert!(rt; disk.read_at(0, &mut []).is_ok_and(|count| count == 0));
}

#[test]
fn zeros_stand_before_what_is_written_past_the_end(rt: HostRuntime) {
    let alloc = rt.alloc();
    let mut disk = SureDisk::new(alloc, Files::new(alloc));
    assert!(rt; disk.open(b"J", true).is_ok_and(|found| found));
    assert!(rt; disk.write_at(5, b"").is_ok());
    assert!(rt; disk.length().is_ok_and(|count| count == 0));
    assert!(rt; disk.write_at(2, b"x").is_ok());
    let mut piece = [9u8; 4];
    assert!(rt; disk.read_at(0, &mut piece).is_ok_and(|count| count == 3));
    assert_eq!(rt; &piece[..3], b"\0\0x".as_slice());
}

#[test]
fn each_file_is_its_own(rt: HostRuntime) {
    let alloc = rt.alloc();
    let mut disk = SureDisk::new(alloc, Files::new(alloc));
    let mut piece = [0u8; 2];
    for name in [b"J", b"K"] {
        assert!(rt; disk.open(name, true).is_ok_and(|found| found));
        assert!(rt; disk.write_at(0, name).is_ok());
    }
    for name in [b"J", b"K"] {
        assert!(rt; disk.open(name, false).is_ok_and(|found| found));
        assert!(rt; disk.read_at(0, &mut piece).is_ok_and(|count| count == 1));
        assert_eq!(rt; piece[0], name[0]);
    }
}

#[test]
fn named_calls_fail_and_change_nothing(rt: HostRuntime) -> Result<(), Fail> {
    let alloc = rt.alloc();
    let mut files = Files::new(alloc);
    files.push(b"J", b"abc")?;
    let mut disk = MemoryDisk::new(alloc, files, [1, 3, 5, 6, 8].to_vec(alloc)?);
    assert!(rt; disk.open(b"J", false) == Err(Failed));
    assert!(rt; disk.open(b"J", false).is_ok_and(|found| found));
    assert!(rt; disk.write_at(0, b"x") == Err(Failed));
    assert!(rt; disk.length().is_ok_and(|count| count == 3));
    assert!(rt; disk.sync() == Err(Failed));
    assert!(rt; disk.length() == Err(Failed));
    let mut piece = [0u8; 3];
    assert!(rt; disk.read_at(0, &mut piece).is_ok_and(|count| count == 3));
    assert_eq!(rt; piece.as_slice(), b"abc".as_slice());
    assert!(rt; disk.read_at(0, &mut piece) == Err(Failed));
    Ok(())
}

#[test]
fn an_open_that_fails_makes_nothing(rt: HostRuntime) -> Result<(), Fail> {
    let alloc = rt.alloc();
    let mut disk = MemoryDisk::new(alloc, Files::new(alloc), [1].to_vec(alloc)?);
    assert!(rt; disk.open(b"J", true) == Err(Failed));
    assert!(rt; disk.open(b"J", false).is_ok_and(|found| !found));
    Ok(())
}
