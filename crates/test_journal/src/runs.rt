// Cases on disks.
ghost use Rattle.std.specs.Prelude.{IsTrue};

use crate::cases::{count_of, fails_of, file_of, value_of};
use crate::images::add_images;
use crate::script::{add_bytes, run};
use sheet_outside::Disk;
use sheet_outside_disks::{FileDisk, Files, MemoryDisk};
use sheet_values::NoMemory;
use std::alloc::Global;
use std::fs;
use std::fs::File;

// A disk in memory with the file of a case.
fn disk_of(alloc: Global, case: &str, fails: Vec<u64>) -> Result<MemoryDisk, NoMemory> {
    let mut files = Files::new(alloc);
    if let Some(bytes) = file_of(alloc, case)? {
        files.push(b"J", &bytes)?;
    }
    Ok(MemoryDisk::new(alloc, files, fails))
}

/// The name of a case, what it comes to on a disk in memory, and whether it comes to the same on a file of the system. Where
/// calls are to fail, nothing is said of a file of the system.
pub(crate) fn told_of<R: std::fs::Files<File = File> + Drop>(
    alloc: Global,
    files: R,
    case: &str,
) -> Result<String, NoMemory> {
    let mut text = String::new(alloc);
    text.push_str(case.lines().next().unwrap_or(""))?;
    text.push_str("\n")?;
    let told = add_in_memory(alloc, case, &mut text)?;
    if value_of(case, "fails").is_none() {
        add_on_file(alloc, files, case, told.as_str(), &mut text)?;
    }
    Ok(text)
}

// What a case comes to on a disk in memory, and what is read after crashes there. Gives the first back.
fn add_in_memory(alloc: Global, case: &str, text: &mut String) -> Result<String, NoMemory> {
    let fails = fails_of(alloc, case)?;
    let mut disk = disk_of(alloc, case, fails)?;
    let told = run(alloc, &mut disk, case)?;
    text.push_str(told.as_str())?;
    let calls = count_of(case, "images").max(count_of(case, "each"));
    add_images(alloc, &disk, calls, text)?;
    add_image(&disk, case, text)?;
    add_each(alloc, case, text)?;
    Ok(told)
}

// The bytes of the images that a case asks for.
fn add_image(disk: &MemoryDisk, case: &str, text: &mut String) -> Result<(), NoMemory> {
    for line in case.lines() {
        if let Some(asked) = line.strip_prefix("image ") {
            let (call, fill) = asked.split_once(' ').unwrap_or(("0", "0"));
            let image = disk.image(call.parse().unwrap_or(0), fill.parse().unwrap_or(0))?;
            write!(text, "\n{line}: {} bytes ", image.len()).map_err(|_| NoMemory)?;
            add_bytes(text, &image)?;
        }
    }
    Ok(())
}

// What it comes to where each call fails in turn.
fn add_each(alloc: Global, case: &str, text: &mut String) -> Result<(), NoMemory> {
    let calls = count_of(case, "each");
    for call in 1..=calls {
        write!(text, "\ncall {call} fails: ").map_err(|_| NoMemory)?;
        add_failing(alloc, case, call, calls, text)?;
    }
    Ok(())
}

// What it comes to where one call fails.
fn add_failing(
    alloc: Global,
    case: &str,
    call: u64,
    calls: u64,
    text: &mut String,
) -> Result<(), NoMemory> {
    let mut disk = disk_of(alloc, case, [call].to_vec(alloc)?)?;
    let told = run(alloc, &mut disk, case)?;
    text.push_str(told.as_str())?;
    add_images(alloc, &disk, calls, text)
}

// Whether a case comes to this on a file of the system, or else to what.
fn add_on_file<R: std::fs::Files<File = File> + Drop>(
    alloc: Global,
    files: R,
    case: &str,
    wanted: &str,
    text: &mut String,
) -> Result<(), NoMemory> {
    let _ = fs::remove_file(&files, "J");
    let mut disk = FileDisk::new(files);
    if let Some(bytes) = file_of(alloc, case)? {
        if !write_file(&mut disk, &bytes) {
            text.push_str("\nNO FILE COULD BE WRITTEN")?;
        }
    }
    let told = run(alloc, &mut disk, case)?;
    if told.as_str() == wanted {
        text.push_str("\non a file of the system the same")?;
    } else {
        text.push_str("\nON A FILE OF THE SYSTEM: ")?;
        text.push_str(told.as_str())?;
    }
    Ok(())
}

// Writes a file. False where it could not.
fn write_file<D: Disk>(disk: &mut D, bytes: &[u8]) -> bool {
    if !disk.open(b"J", true).is_ok_and(|found| found) {
        return false;
    }
    disk.write_at(0, bytes).is_ok() && disk.sync().is_ok()
}
