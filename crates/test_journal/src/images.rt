// What is read after a crash.
ghost use Rattle.std.specs.Prelude.{◌≡◌, IsTrue, None};

use crate::script::add_record;
use sheet_journal::{Journal, JournalRefusal};
use sheet_outside_disks::{Files, MemoryDisk, SureDisk};
use sheet_values::NoMemory;
use std::alloc::Global;

/// What stands wherever any byte may stand.
const FILLS: [u8; 4] = [0, 1, 7, 255];

/// What is read after a crash behind each of the first calls.
pub(crate) fn add_images(
    alloc: Global,
    disk: &MemoryDisk,
    calls: u64,
    text: &mut String,
) -> Result<(), NoMemory> {
    if calls > 0 {
        text.push_str("|")?;
    }
    for call in 1..=calls {
        let told = told_behind(alloc, disk, call)?;
        text.push_str(" ")?;
        text.push_str(told.as_str())?;
    }
    Ok(())
}

// What is read after a crash behind this call, with each fill, or once where that is the same.
fn told_behind(alloc: Global, disk: &MemoryDisk, call: u64) -> Result<String, NoMemory> {
    let first = recovered(alloc, &disk.image(call, 0)?)?;
    let mut all = String::new(alloc);
    let mut same = true;
    for fill in FILLS {
        let other = recovered(alloc, &disk.image(call, fill)?)?;
        same = same && other.as_str() == first.as_str();
        if fill != 0 {
            all.push_str("/")?;
        }
        all.push_str(other.as_str())?;
    }
    Ok(if same { first } else { all })
}

/// The records of a journal whose file has these bytes, `-` for no journal.
pub(crate) fn recovered(alloc: Global, bytes: &[u8]) -> Result<String, NoMemory> {
    let mut files = Files::new(alloc);
    files.push(b"J", bytes)?;
    let mut disk = SureDisk::new(alloc, files);
    let mut text = String::new(alloc);
    match Journal::open(alloc, &mut disk, b"J") {
        Ok(mut journal) => add_records(&mut disk, &mut journal, &mut text)?,
        Err(JournalRefusal::NotAJournal(_)) => text.push_str("-")?,
        Err(refusal) => write!(text, "{refusal:?}").map_err(|_| NoMemory)?,
    }
    Ok(text)
}

fn add_records(
    disk: &mut SureDisk,
    journal: &mut Journal,
    text: &mut String,
) -> Result<(), NoMemory>
    requires open { IsTrue disk.old.is_open }
    requires decided { journal.old.doubt ≡ None }
{
    for _ in 0..1000u32 {
        match journal.next_record(disk) {
            Ok(Some(record)) => add_record(text, &record)?,
            Ok(None) => return Ok(()),
            Err(refusal) => {
                write!(text, "{refusal:?}").map_err(|_| NoMemory)?;
                return Ok(());
            }
        }
    }
    Ok(())
}
