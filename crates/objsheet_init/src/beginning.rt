// The beginning of a journal.
ghost use Rattle.std.specs.Prelude.{◌≡◌, ◌⊎◌, ◌≤◌, ◌+◌, length, IfOk};
ghost use Rattle.sheet_outside.specs.Causes.{Rose};
ghost use Rattle.sheet_outside.specs.Told.{WhereTold};
ghost use Rattle.sheet_journal.specs.Layout.{size};
ghost use Rattle.sheet_journal.specs.Journal.{journal_at};
ghost use Rattle.sheet_journal.specs.JournalCalls.{Inits, HasDiskCause};
ghost use Rattle.objsheet_status.specs.Outside.{seen};
ghost use Rattle.objsheet_init.specs.Beginning.{Begun, first_entry};

use objsheet_status::{DISK_FAILED, DONE, OUT_OF_MEMORY, REFUSED, write_last_line};
use sheet_journal::{Journal, JournalRefusal};
use sheet_machine_records::first_record;
use sheet_outside::{Disk, Sink};
use sheet_values::NoMemory;
use std::alloc::Global;

/// Begins the journal of a definition, for an operator's key of at most 64 bytes and a definition of at most 262,144, and writes one
/// line: `ok`, or that there is a file already.
///
/// The status is 0 where the journal was made, and 1 where there is a file of more than nine bytes that isn't what a beginning that
/// was stopped leaves; what a read gives of it stays. 4 where the sink failed, which is after all that is done on the disk. 5 where
/// the disk failed; the file may be a journal with that record already. 7 where there was no memory, before the disk is called.
pub fn begin_journal<K: Sink, D: Disk>(
    alloc: Global,
    name: &[u8],
    key: &[u8],
    definition: &[u8],
    output: &mut K,
    disk: &mut D,
) -> u8
    requires key { length key.now ≤ 64 }
    requires definition { length definition.now ≤ 262144 }
    ensures statuses { (result ≡ 0) ⊎ ((result ≡ 1) ⊎ ((result ≡ 4) ⊎ ((result ≡ 5) ⊎ (result ≡ 7)))) }
    ensures begun { Begun name.now (first_entry key.now definition.now) result (seen (K.written output.old) (K.faults output.old)) (seen (K.written output.new) (K.faults output.new)) (seen (D.told disk.old) (D.faults disk.old)) (seen (D.told disk.new) (D.faults disk.new)) }
    ensures sink { result ≡ 4 → Rose (K.faults output.old) (K.faults output.new) }
    ensures disk { result ≡ 5 → Rose (D.faults disk.old) (D.faults disk.new) }
{
    match make_journal(alloc, disk, name, key, definition) {
        Ok(_) => write_last_line(output, b"ok\n", DONE),
        Err(JournalRefusal::AlreadyThere) => {
            write_last_line(output, b"refused: already there\n", REFUSED)
        }
        Err(JournalRefusal::DiskFault) => DISK_FAILED,
        Err(_) => OUT_OF_MEMORY,
    }
}

// Makes the journal, with its first record.
fn make_journal<D: Disk>(
    alloc: Global,
    disk: &mut D,
    name: &[u8],
    key: &[u8],
    definition: &[u8],
) -> Result<Journal, JournalRefusal>
    requires key { length key.now ≤ 64 }
    requires definition { length definition.now ≤ 262144 }
    ensures journal { IfOk result (λ j. j ≡ journal_at (8 + size (first_entry key.now definition.now))) }
    ensures file { WhereTold (Inits name.now (first_entry key.now definition.now) result) (D.told disk.old) (D.told disk.new) }
    ensures cause { HasDiskCause (D.faults disk.old) (D.faults disk.new) result }
{
    match first_record(alloc, key, definition) {
        Ok(payload) => Journal::init(alloc, disk, name, payload.as_slice()),
        Err(NoMemory) => Err(JournalRefusal::NoMemory),
    }
}
