// Files of the system.
use sheet_outside::Disk;
use sheet_outside_disks::FileDisk;
use std::fs;

#[test]
fn what_was_written_is_read_again(rt: HostRuntime) {
    let _ = fs::remove_file(&rt, "J");
    let mut disk = FileDisk::new(&rt);
    assert!(rt; disk.open(b"J", false).is_ok_and(|found| !found));
    assert!(rt; disk.open(b"J", true).is_ok_and(|found| found));
    assert!(rt; disk.length().is_ok_and(|count| count == 0));
    assert!(rt; disk.write_at(0, b"abc").is_ok());
    assert!(rt; disk.write_at(2, b"de").is_ok());
    assert!(rt; disk.sync().is_ok());
    let mut piece = [0u8; 8];
    assert!(rt; disk.read_at(1, &mut piece).is_ok_and(|count| count == 3));
    assert_eq!(rt; &piece[..3], b"bde".as_slice());
    assert!(rt; disk.read_at(4, &mut piece).is_ok_and(|count| count == 0));
}

#[test]
fn a_file_that_was_made_is_found_by_another_disk(rt: HostRuntime) {
    let _ = fs::remove_file(&rt, "K");
    let mut disk = FileDisk::new(&rt);
    assert!(rt; disk.open(b"K", true).is_ok_and(|found| found));
    assert!(rt; disk.write_at(1, b"x").is_ok());
    assert!(rt; disk.sync().is_ok());
    let mut other = FileDisk::new(&rt);
    assert!(rt; other.open(b"K", false).is_ok_and(|found| found));
    assert!(rt; other.length().is_ok_and(|count| count == 2));
    let mut piece = [9u8; 2];
    assert!(rt; other.read_at(0, &mut piece).is_ok_and(|count| count == 2));
    assert_eq!(rt; piece.as_slice(), b"\0x".as_slice());
    assert!(rt; other.sync().is_ok());
}

#[test]
fn files_stand_in_folders(rt: HostRuntime) {
    let mut disk = FileDisk::new(&rt);
    assert!(rt; disk.open(b"none/J", false).is_ok_and(|found| !found));
    assert!(rt; disk.open(b"none/J", true).is_err());
    let _ = fs::create_dir(&rt, "folder");
    assert!(rt; disk.open(b"folder/J", true).is_ok_and(|found| found));
    assert!(rt; disk.sync().is_ok());
    assert!(rt; disk.open(b"folder", false).is_err());
    assert!(rt; disk.open(b"folder", true).is_err());
    assert!(rt; disk.open(b"\xFF", true).is_err());
}
