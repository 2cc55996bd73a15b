// The same writes and syncs without a journal.
use crate::records::PAYLOAD;
use std::alloc::Global;
use std::fs::{File, Files, OpenOptions};
use std::io::Write;
use std::os::unix::fs::FileExt;

/// Writes so many records of 60 bytes and a gate as an `append` does: two writes and two syncs each.
pub(crate) fn write_plain<R: Files<File = File> + Drop>(files: R, times: u32) -> Option<u32> {
    let file = open(&files)?;
    let mut place = 0u64;
    for done in 0..times {
        if !write_one(&file, place) {
            return Some(done);
        }
        place = place.saturating_add(60);
    }
    Some(times)
}

fn open<R: Files<File = File>>(files: &R) -> Option<File> {
    OpenOptions::new()
        .read(true)
        .write(true)
        .create(true)
        .open(files, "J")
        .ok()
}

fn write_one(file: &File, place: u64) -> bool {
    let mut record = [0u8; 60];
    record[5..59].copy_from_slice(PAYLOAD);
    file.write_all_at(&record, place.saturating_add(1)).is_ok()
        && file.sync_all().is_ok()
        && file.write_all_at(&[1], place).is_ok()
        && file.sync_all().is_ok()
}

/// Writes a journal of so many records, in large pieces.
pub(crate) fn fill<R: Files<File = File> + Drop>(
    alloc: Global,
    files: R,
    times: u32,
) -> Option<u32> {
    let mut file = open(&files)?;
    if file.write_all(b"OSHEETJ1").is_err() {
        return None;
    }
    let mut piece = Vec::new(alloc);
    for done in 0..times {
        if add_record(&mut piece).is_err() {
            return Some(done);
        }
        if piece.len() > 1 << 20 {
            if file.write_all(&piece).is_err() {
                return Some(done);
            }
            piece.clear();
        }
    }
    if file.write_all(&piece).is_err() || file.write_all(&[0]).is_err() {
        return None;
    }
    Some(times)
}

fn add_record(piece: &mut Vec<u8>) -> Result<(), std::alloc::AllocError> {
    piece.extend_from_slice(&[1, 0, 0, 0, 54, 1])?;
    piece.extend_from_slice(PAYLOAD)
}
