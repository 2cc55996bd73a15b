// Records that are appended to a journal, and read of it.
ghost use Rattle.std.specs.Prelude.{◌≡◌, ◌+◌, ◌≤◌, None, IsTrue};

use sheet_journal::Journal;
use sheet_outside::Disk;
use std::alloc::Global;

/// The payload of a record of 60 bytes.
pub(crate) const PAYLOAD: &[u8; 54] =
    b"{\"do\":\"turn\",\"key\":\"op\",\"number\":100000,\"with\":[true]}";

/// Begins a journal, and appends so many records.
pub(crate) fn append<D: Disk>(alloc: Global, disk: &mut D, times: u32) -> Option<u32> {
    let Ok(mut journal) = Journal::init(alloc, disk, b"J", b"first") else {
        return None;
    };
    for done in 0..times {
        if !append_one(disk, &mut journal) {
            return Some(done);
        }
    }
    Some(times)
}

// Appends a record. False where it could not.
fn append_one<D: Disk>(disk: &mut D, journal: &mut Journal) -> bool
    requires open { IsTrue (D.is_open disk.old) }
    requires decided { journal.old.doubt ≡ None }
    requires room { journal.old.place ≤ 10000000000000000000 }
    ensures open { IsTrue (D.is_open disk.new) }
    ensures decided { IsTrue result → journal.new.doubt ≡ None }
    ensures place { IsTrue result → journal.new.place ≡ journal.old.place + 60 }
{
    match journal.prepare(1, PAYLOAD) {
        Ok(()) => journal.append(disk).is_ok(),
        Err(_) => false,
    }
}

/// Opens a journal, and reads its records.
pub(crate) fn read<D: Disk>(alloc: Global, disk: &mut D) -> Option<u32> {
    let Ok(mut journal) = Journal::open(alloc, disk, b"J") else {
        return None;
    };
    for count in 0..u32::MAX {
        match next(disk, &mut journal) {
            Some(true) => {}
            Some(false) => return Some(count),
            None => return None,
        }
    }
    None
}

// Whether there was a record more. None where it could not be read.
fn next<D: Disk>(disk: &mut D, journal: &mut Journal) -> Option<bool>
    requires open { IsTrue (D.is_open disk.old) }
    requires decided { journal.old.doubt ≡ None }
    ensures open { IsTrue (D.is_open disk.new) }
    ensures decided { journal.new.doubt ≡ None }
{
    match journal.next_record(disk) {
        Ok(record) => Some(record.is_some()),
        Err(_) => None,
    }
}
